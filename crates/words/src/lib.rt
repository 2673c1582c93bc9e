// An answer and a run as the words that C gets: the code of a verdict, a place, a pair, and the 136 words of a run.
#![tactic(auto)]

ghost use Rattle.std.specs.Prelude.{◌≡◌, ◌+◌, ◌*◌, ◌^◌, ◌≤◌, [], ◌∷◌, length, drop};
ghost use Rattle.answers.specs.Refusals.{number_of, detail_of, told, after};
ghost use Rattle.answers.specs.Promised.{code_of};
ghost use Rattle.words.specs.Words.{run_in, words_of};

use answers::Refusal;
use kinds::{Kind, Mode, Signs};
use run::{Handed, Run};

// A refusal's number, and its detail in the high half.
pub fn code(refusal: Refusal) -> u64
    ensures { result ≡ number_of refusal + detail_of refusal * 2 ^ 32 }
{
    refusal.number() as u64 + refusal.detail() as u64 * 4294967296
}

pub fn code_of(verdict: Result<(), Refusal>) -> u64
    ensures { result ≡ code_of (told verdict) }
{
    match verdict {
        Ok(()) => 0,
        Err(refusal) => code(refusal),
    }
}

pub fn put_pair(out: &mut [u32], first: u32, second: u32)
    requires { length out.old ≡ 2 }
    ensures { out.new ≡ first ∷ second ∷ [] }
{
    out[0] = first;
    out[1] = second;
}

// A run out of its words.
#[tactic(auto, unfolding(crate::specs::Words::run_in), using(crate::proofs::Laws::lent_last))]
pub fn taken(words: &[u32]) -> Run
    requires { length words.now ≡ 136 }
    ensures { result ≡ run_in words.now }
{
    let mut sums: [u32; 128] = [0; 128];
    let mut marks: [u32; 4] = [0; 4];
    sums.copy_from_slice(&words[4..132]);
    marks.copy_from_slice(&words[132..136]);
    Run {
        kind: Kind(words[0]),
        signs: Signs(words[1]),
        mode: Mode(words[2]),
        blocks: words[3],
        sums,
        marks,
    }
}

// The first four words: a place's, or those before a run's sums.
pub fn put_four(words: &mut [u32], first: u32, second: u32, third: u32, fourth: u32)
    requires { 4 ≤ length words.old }
    ensures { words.new ≡ first ∷ second ∷ third ∷ fourth ∷ drop 4 words.old }
{
    words[0] = first;
    words[1] = second;
    words[2] = third;
    words[3] = fourth;
}

// A run into its words.
#[tactic(auto, unfolding(crate::specs::Words::words_of), using(crate::proofs::Laws::marks_behind))]
pub fn put(run: Run, words: &mut [u32])
    requires { length words.old ≡ 136 }
    ensures { words.new ≡ words_of run }
{
    words[4..132].copy_from_slice(&run.sums);
    words[132..136].copy_from_slice(&run.marks);
    put_four(words, run.kind.0, run.signs.0, run.mode.0, run.blocks);
}

// The words of a run that was fed, where the feed was accepted: refused, they stay. The answer is the verdict's code.
pub fn put_fed(fed: Handed, words: &mut [u32]) -> u64
    requires { length words.old ≡ 136 }
    ensures code { result ≡ code_of (told fed.verdict) }
    ensures left { words.new ≡ after (told fed.verdict) (words_of fed.run) words.old }
{
    match fed.verdict {
        Ok(()) => {
            put(fed.run, words);
            0
        }
        Err(refusal) => code(refusal),
    }
}
