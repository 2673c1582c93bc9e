// Reads records of four bytes from standard input and prints a line for each: the program of document 01. What it prints for
// which bytes is `lookup_text::put_lines`; here bytes are only moved, and what fails is said on standard error.
#![tactic(auto)]

ghost use Rattle.std.specs.Prelude.{◌≡◌, ℕ, ◌-◌, ◌%◌, ◌^◌, ◌<◌, ◌≤◌, ◌↔◌, List, length, take, true, false, IsTrue, IsNone, IsSome, IfSome, IsOk, IfOk, OnOk};
ghost use Rattle.std.specs.Io.KnownBytes.{Appends, Consumes, IsAtEnd};
ghost use Rattle.lookup_text.specs.Text.{printed};
ghost use Rattle.std.specs.Counts.{IsPrefixLen};

use std::io;
use std::io::{Read, Write};
use std::process::ExitCode;
use stream::Failed;

// What came of the records: so many bytes, and why a read failed behind them, where one did. It is no `Result`, since both are needed: lines are
// printed for the whole records that came, and then the failure is said.
#[derive(Drop)]
struct Came {
    bytes: usize,
    failed: Option<io::Error>,
}

impl Came {
    // The bytes that lines are printed for: all that came, or the whole records alone where the rest of one could not be read.
    fn told(&self) -> usize
        ensures in_bounds { result ≤ self.now.bytes }
        ensures all { IsNone self.now.failed → result ≡ self.now.bytes }
        ensures whole { IsSome self.now.failed → result ≡ self.now.bytes - self.now.bytes % 4 }
    {
        match self.failed {
            Some(_) => self.bytes - self.bytes % 4,
            None => self.bytes,
        }
    }

    // There is more to come after whole records only: one that is short stands at the end of the input.
    fn goes_on(self) -> Result<bool, Failed>
        ensures sound { IsOk result ↔ IsNone self.failed }
        ensures more { IfOk result (λ more. IsTrue more ↔ ((0 < self.bytes) × (self.bytes % 4 ≡ 0))) }
    {
        match self.failed {
            Some(e) => Err(Failed::Input(e)),
            None => Ok(self.bytes > 0 && self.bytes % 4 == 0),
        }
    }
}

// Reads once, and waits for the rest of a record that has begun.
fn read_some<R: Read>(from: &mut R, input: &mut [u8]) -> Came
    requires { length input.old % 4 ≡ 0 }
    ensures in_bounds { IsPrefixLen result.bytes input.new }
    ensures moved { Consumes (R.remaining from.old) (R.remaining from.new) (take result.bytes input.new) }
    ensures none { 0 < length input.new → IsNone result.failed → result.bytes ≡ 0 → IsAtEnd (R.remaining from.old) }
    ensures short { IsNone result.failed → 0 < result.bytes % 4 →
        IfSome (R.remaining from.old) (λ bytes. bytes ≡ take result.bytes input.new) }
{
    let mut bytes = 0;
    let mut whole = input.len();
    // By hand, since the library's `read_exact` says nothing of what came before a failure.
    while bytes < whole {
        match stream::read_behind(from, &mut input[..whole], bytes) {
            Ok(held) if held == bytes => break,
            Ok(held) => {
                bytes = held;
                whole = held.next_multiple_of(4);
            }
            Err(e) => {
                return Came {
                    bytes,
                    failed: Some(e),
                };
            }
        }
    }
    Came {
        bytes,
        failed: None,
    }
}

// One read and its lines; the answer is whether to go on, which it is not once all that was left has come.
fn turn<R: Read, W: Write>(out: &mut W, from: &mut R) -> Result<bool, Failed>
    ensures { IfOk result (λ more. (bytes : List ℕ) × Consumes (R.remaining from.old) (R.remaining from.new) bytes
        × Appends (W.contents out.old) (W.contents out.new) (printed bytes)
        × (more ≡ true → (0 < length bytes) × (length bytes % 4 ≡ 0))
        × (more ≡ false → IfSome (R.remaining from.old) (λ all. all ≡ bytes))) }
{
    let mut input = [0u8; 16384];
    let mut output = [0u8; 65536];
    let came = read_some(from, &mut input);
    let end = lookup_text::put_lines(&input[..came.told()], &mut output);
    out.write_all(&output[..end]).map_err(Failed::Output)?;
    came.goes_on()
}

// Where it succeeds, the lines of the whole input were written. A proved loop has to end, and nothing says that an input does: no run uses up so
// many turns.
fn answer_all<R: Read, W: Write>(out: &mut W, from: &mut R) -> Result<(), Failed>
    ensures { OnOk result (IfSome (R.remaining from.old) (λ bytes. length bytes < 2 ^ 64 →
        Appends (W.contents out.old) (W.contents out.new) (printed bytes))) }
{
    for turns in 0..u64::MAX {
        if !turn(out, from)? {
            break;
        }
    }
    Ok(())
}

fn main(rt: HostRuntime) -> ExitCode {
    if stream::has_argument(&rt, 1) {
        let _ = eprintln!(rt; "usage: lookup (records of four bytes on standard input)");
        return ExitCode::SUCCESS;
    }
    match answer_all(&mut io::writer(&rt), &mut rt.stdin()) {
        Ok(()) => ExitCode::SUCCESS,
        Err(failed) => {
            let _ = eprintln!(rt; "lookup: {failed}");
            ExitCode::FAILURE
        }
    }
}
