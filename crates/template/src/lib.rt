// Soft templates: records of 256 bytes that hold B of kind 3, row-major, read into lane words and written back.
#![tactic(auto)]

ghost use Rattle.std.specs.Prelude.{◌≡◌, length};
ghost use Rattle.answers.specs.Promised.{Meets};
ghost use Rattle.buffers.specs.Buffers.{Fitting};
ghost use Rattle.template.specs.Templates.{read_call, write_call};

use answers::Refusal;
use kinds::{Kind, Layout, Role};

// The bytes of a record.
pub const BYTES: usize = 256;

// The words of B of kind 3, whose layout the calls below take.
pub const WORDS: usize = 64;

// A record to the lane words of its matrix.
pub fn read(record: &[u8], words: &mut [u32]) -> Result<(), Refusal>
    ensures { Meets (read_call «record».now words.old) words.old result
        words.new }
{
    if record.len() != BYTES {
        return Err(Refusal::WrongLength(0));
    }
    if words.len() != WORDS {
        return Err(Refusal::WrongLength(1));
    }
    let f = Layout::of(Kind(3), Role(Role::B));
    let mut matrix: [u64; 256] = [0; 256];
    widen(record, &mut matrix);
    pack_lanes::fill_words(&matrix, words, &f);
    Ok(())
}

// Lane words to the record of their matrix.
pub fn write(words: &[u32], record: &mut [u8]) -> Result<(), Refusal>
    ensures { Meets (write_call words.now «record».old) «record».old result
        «record».new }
{
    if words.len() != WORDS {
        return Err(Refusal::WrongLength(0));
    }
    if record.len() != BYTES {
        return Err(Refusal::WrongLength(1));
    }
    let f = Layout::of(Kind(3), Role(Role::B));
    let mut matrix: [u64; 256] = [0; 256];
    unpack_lanes::fill(words, &mut matrix, &f);
    narrow(&matrix, record);
    Ok(())
}

fn wide(x: u8) -> u64
    ensures { result ≡ x }
{
    x as u64
}

// The bytes of a record as the entries of its matrix.
fn widen(record: &[u8], matrix: &mut [u64])
    requires { length matrix.old ≡ length «record».now }
    ensures { matrix.new ≡ «record».now }
{
    for x in 0..record.len() {
        matrix[x] = wide(record[x]);
    }
}

// The entries of a matrix, which fit, as the bytes of its record.
fn narrow(matrix: &[u64], record: &mut [u8])
    requires { Fitting 8 matrix.now × (length «record».old ≡ length matrix.now) }
    ensures { «record».new ≡ matrix.now }
{
    for x in 0..matrix.len() {
        record[x] = matrix[x] as u8;
    }
}
