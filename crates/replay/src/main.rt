// Reads step records from a file or from standard input and prints a verdict for each: the program of document 02, K2. What it prints for
// which bytes is `replay_text::put_lines`; here bytes are only moved, and what fails is said on standard error.
#![tactic(auto)]

ghost use Rattle.std.specs.Prelude.{◌≡◌, ℕ, ◌+◌, ◌/◌, ◌^◌, ◌<◌, ◌≤◌, List, [], ◌++◌, length, IfSome, IsNone, IfOk, OnOk};
ghost use Rattle.std.specs.Io.KnownBytes.{Appends, Consumes, IsAtEnd};
ghost use Rattle.records.specs.Records.{record_bytes};
ghost use Rattle.replay_text.specs.Text.{printed, printed_from};
ghost use Rattle.replay.specs.Turns.{begun, part_of};

use std::io;
use std::io::{Read, Write};
use std::process::ExitCode;
use stream::{Failed, LONGEST_NAME, Named};
use text::Text;

// The bytes that a turn has room for.
const ROOM: usize = 36 * records::BYTES;

// A number of bytes that no input has, since a proved loop has to end.
const NEVER: u64 = 1 << 63;

// One read and its lines, where so many bytes came before; the answer is how many came now, or none where it is over. The bytes of a record that
// has begun stand at the start of `input`, before and after.
fn turn<R: Read, W: Write>(
    out: &mut W,
    from: &mut R,
    input: &mut [u8; ROOM],
    come: u64,
) -> Result<Option<usize>, Failed>
    requires { come < 2 ^ 63 }
    ensures few { IfOk result (λ came. IfSome came (λ n. (0 < n) × (n ≤ ROOM))) }
    ensures lines { IfOk result (λ came. IfSome came (λ n. (bytes : List ℕ) × (length bytes ≡ n)
        × Consumes (R.remaining from.old) (R.remaining from.new) bytes
        × Appends (W.contents out.old) (W.contents out.new) (printed_from (come / record_bytes) (begun come input.old ++ bytes))
        × (begun (come + n) input.new ≡ part_of (begun come input.old ++ bytes)))) }
    ensures over { IfOk result (λ came. IsNone came → IsAtEnd (R.remaining from.old) × Consumes (R.remaining from.old) (R.remaining from.new) []
        × (out.new ≡ out.old) × (begun come input.new ≡ begun come input.old)) }
{
    let mut output = [0u8; 2048];
    let size = records::BYTES as u64;
    let number = come / size;
    let begun = (come % size) as usize;
    let held = stream::read_behind(from, input, begun).map_err(Failed::Input)?;
    if held == begun {
        return Ok(None);
    }
    let end = replay_text::put_lines(number, &input[..held], &mut output);
    out.write_all(&output[..end]).map_err(Failed::Output)?;
    stream::keep(input, held - held % records::BYTES, held);
    Ok(Some(held - begun))
}

// Where it succeeds, the lines of the whole file were written.
fn replay_all<R: Read, W: Write>(out: &mut W, from: &mut R) -> Result<(), Failed>
    ensures { OnOk result (IfSome (R.remaining from.old) (λ file. length file < 2 ^ 63 →
        Appends (W.contents out.old) (W.contents out.new) (printed file))) }
{
    let mut input = [0u8; ROOM];
    let mut come = 0;
    while come < NEVER
        && let Some(more) = turn(out, from, &mut input, come)?
    {
        come += more as u64;
    }
    Ok(())
}

fn replay(rt: &HostRuntime, named: &Named) -> Result<(), Failed> {
    let mut from = named.open(rt).map_err(Failed::Input)?;
    replay_all(&mut io::writer(rt), &mut from)
}

// What failed, and why. A file's name need not be text, and is written as it is, in one piece with the program's: other programs may write to the same
// standard error. Where that takes nothing, no more can be done.
fn say(rt: &HostRuntime, name: &[u8], why: io::Error)
    requires { length name.now ≤ LONGEST_NAME }
{
    let mut room = [0u8; 8 + LONGEST_NAME];
    let mut what = Text::new(&mut room);
    what.push_text(b"replay: ");
    what.push_text(name);
    let end = what.len();
    let _ = rt.stderr().write_all(&room[..end]);
    let _ = eprintln!(rt; ": {why}");
}

fn main(rt: HostRuntime) -> ExitCode {
    if stream::has_argument(&rt, 2) {
        let _ = eprintln!(rt; "usage: replay [FILE]");
        return ExitCode::SUCCESS;
    }
    let mut room = [0u8; LONGEST_NAME];
    let named = Named::by_argument(&rt, 1, &mut room);
    match replay(&rt, &named) {
        Ok(()) => return ExitCode::SUCCESS,
        Err(Failed::Input(why)) => say(&rt, named.as_bytes(), why),
        Err(Failed::Output(why)) => say(&rt, b"standard output", why),
    }
    ExitCode::FAILURE
}
