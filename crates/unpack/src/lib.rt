// Unpacking: lane words to the row-major matrix of bit patterns.
#![tactic(auto)]

ghost use Rattle.answers.specs.Promised.{Meets};
ghost use Rattle.unpack.specs.Workers.{unpack_call_in};
ghost use Rattle.unpack.specs.UnpackCall.{unpack_call};

use answers::Refusal;
use kinds::{Kind, Lane, Layout, Role};

// Lane words to the row-major matrix of bit patterns.
pub fn unpack(kind: Kind, role: Role, words: &[u32], matrix: &mut [u64]) -> Result<(), Refusal>
    ensures { Meets (unpack_call kind.0 role.0 words.now matrix.old)
        matrix.old result matrix.new }
{
    let f = kinds::layout_of(kind, role)?;
    unpack_in(&f, words, matrix)
}

// The same by the layout.
fn unpack_in(f: &Layout, words: &[u32], matrix: &mut [u64]) -> Result<(), Refusal>
    ensures { Meets (unpack_call_in f.now words.now matrix.old) matrix.old result
        matrix.new }
{
    if words.len() != Lane::COUNT * f.words {
        return Err(Refusal::WrongLength(0));
    }
    if matrix.len() != f.rows() * f.columns() {
        return Err(Refusal::WrongLength(1));
    }
    unpack_lanes::fill(words, matrix, f);
    Ok(())
}
