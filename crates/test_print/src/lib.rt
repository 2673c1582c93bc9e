// What the test programs print by.
#![tactic(auto)]

ghost use Rattle.std.specs.Prelude.{◌≡◌, ◌≢◌, ℕ, ◌<◌, length, get_or, IsNone, IfSome};

use answers::Refusal;
use std::fmt;

// What a call answers, as the test programs print it.
#[derive(Clone, Copy)]
pub struct Answer(pub Result<(), Refusal>);

impl fmt::Display for Answer {
    fn fmt<W: fmt::Write>(&self, f: &mut fmt::Formatter<W>) -> fmt::Result {
        match self.0 {
            Ok(()) => write!(f, "accepted"),
            Err(refusal) => write!(f, "{refusal}"),
        }
    }
}

// The index of the first word that is not w.
pub fn first_other(words: &[u32], w: u32) -> Option<usize>
    ensures none { IsNone result → (i : ℕ) → i < length words.now → get_or words.now i 0 ≡ w }
    ensures some { IfSome result (λ n. (n < length words.now) × ((i : ℕ) → i < n → get_or words.now i 0 ≡ w) ×
        (get_or words.now n 0 ≢ w)) }
{
    words.iter().position(|x| *x != w)
}
