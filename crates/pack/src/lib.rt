// Packing: the row-major matrix of bit patterns to lane words.
#![tactic(auto)]

ghost use Rattle.std.specs.Prelude.{◌≡◌, ◌<◌, ◌≤◌, length};
ghost use Rattle.answers.specs.Tests.{first_of};
ghost use Rattle.answers.specs.Promised.{Meets};
ghost use Rattle.pack.specs.Workers.{pack_call_in};
ghost use Rattle.pack.specs.PackCall.{too_wide, pack_call};

use answers::Refusal;
use kinds::{Kind, Lane, Layout, Role};

// The index of the first entry that doesn't fit, or the length.
fn first_wide(matrix: &[u64], bits: usize) -> usize
    requires { (0 < bits) × (bits ≤ 64) }
    ensures { result ≡ first_of (length matrix.now) (too_wide bits matrix.now) }
{
    let most: u64 = 18446744073709551615 >> (64 - bits);
    for i in 0..matrix.len() {
        if most < matrix[i] {
            return i;
        }
    }
    matrix.len()
}

fn pack_in(f: &Layout, matrix: &[u64], words: &mut [u32]) -> Result<(), Refusal>
    ensures { Meets (pack_call_in f.now matrix.now words.old) words.old result
        words.new }
{
    if matrix.len() != f.rows() * f.columns() {
        return Err(Refusal::WrongLength(0));
    }
    if words.len() != Lane::COUNT * f.words {
        return Err(Refusal::WrongLength(1));
    }
    let wide = first_wide(matrix, f.bits);
    if wide < matrix.len() {
        return Err(Refusal::TooWide(wide as u32));
    }
    pack_lanes::fill_words(matrix, words, f);
    Ok(())
}

// The row-major matrix of bit patterns to lane words.
pub fn pack(kind: Kind, role: Role, matrix: &[u64], words: &mut [u32]) -> Result<(), Refusal>
    ensures { Meets (pack_call kind.0 role.0 matrix.now words.old)
        words.old result words.new }
{
    let f = kinds::layout_of(kind, role)?;
    pack_in(&f, matrix, words)
}
