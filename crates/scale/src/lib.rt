// Scale bytes: the choice of bytes by the selectors, the look for 255, and their reading as exponents.
#![tactic(auto)]

ghost use Rattle.std.specs.Prelude.{◌≡◌, ◌≤◌, ◌==◌, length, map, position};
ghost use Rattle.answers.specs.Promised.{Meets};
ghost use Rattle.scale.specs.Bytes.{exponent};
ghost use Rattle.scale.specs.ScaleCall.{scale_call};
ghost use Rattle.scale.specs.Workers.{bytes_call};

use crate::selectors::Selectors;
use answers::Refusal;

mod selectors;

// The byte that is not a number.
const NAN: u8 = 255;

// Numbers of the longest output: of sixteen lanes, four bytes each.
const LONGEST: usize = 64;

// Each selector has its own type, so that none stands in for another. Any u32 may stand in it: what is illegal is refused.
#[derive(Clone, Copy, Debug, PartialEq, Eq)]
pub struct Size(pub u32);

#[derive(Clone, Copy, Debug, PartialEq, Eq)]
pub struct Side(pub u32);

#[derive(Clone, Copy, Debug, PartialEq, Eq)]
pub struct ByteId(pub u32);

#[derive(Clone, Copy, Debug, PartialEq, Eq)]
pub struct ThreadId(pub u32);

impl Side {
    pub const A: u32 = 0;

    pub const B: u32 = 1;
}

// A byte as a signed exponent.
fn exponent_of(byte: u8) -> i32
    ensures { result ≡ exponent byte }
{
    i32::from(byte) - 127
}

// The exponents of bytes. One of the two goes by index: of what a `zip` with `iter_mut` wrote no proof knows.
fn put_exponents(chosen: &[u8], out: &mut [i32])
    requires { length out.old ≡ length chosen.now }
    ensures { out.new ≡ map exponent chosen.now }
{
    for (i, number) in out.iter_mut().enumerate() {
        *number = exponent_of(chosen[i]);
    }
}

// The index of the first byte that is not a number.
fn first_nan(chosen: &[u8]) -> Option<usize>
    ensures { result ≡ position (λ b. b == 255) chosen.now }
{
    chosen.iter().position(|byte| *byte == NAN)
}

// The exponents of bytes, none of which may be 255: nothing is written before all are looked at.
#[tactic(auto, using(crate::proofs::Laws::first_nan))]
fn scale_bytes(chosen: &[u8], out: &mut [i32]) -> Result<(), Refusal>
    requires { (length out.old ≡ length chosen.now) × (length chosen.now ≤ 64) }
    ensures { Meets (bytes_call chosen.now) out.old result out.new }
{
    if let Some(nan) = first_nan(chosen) {
        return Err(Refusal::ScaleNan(nan as u32));
    }
    put_exponents(chosen, out);
    Ok(())
}

// The exponents of the chosen bytes, lanes ascending, low byte first.
pub fn scale(
    size: Size,
    side: Side,
    byte_id: ByteId,
    thread_id: ThreadId,
    metadata: &[u32],
    out: &mut [i32],
) -> Result<(), Refusal>
    ensures { Meets (scale_call size.0 side.0 byte_id.0 thread_id.0 metadata.now
        out.old) out.old result out.new }
{
    let selectors = Selectors::new(size, side, byte_id, thread_id)?;
    selectors.judge_lengths(metadata.len(), out.len())?;
    let mut room: [u8; LONGEST] = [0; LONGEST];
    let chosen = &mut room[..out.len()];
    selectors.choose(metadata, chosen);
    scale_bytes(chosen, out)
}
