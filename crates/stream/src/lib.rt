// What the programs on files share: what ends them, bytes that come through a reader, and the file that an argument names.
#![tactic(auto)]

ghost use Rattle.std.specs.Prelude.{◌≡◌, ◌+◌, ◌-◌, ◌<◌, ◌≤◌, length, take, drop, IfOk, IsOkAnd, IsErr, OnErr};
ghost use Rattle.std.specs.Io.KnownBytes.{Consumes, IsAtEnd, Keeps};
ghost use Rattle.std.specs.Counts.{IsPrefixLen};
ghost use Rattle.stream.specs.Moved.{moved};
ghost use Rattle.stream.specs.Named.{said, IsTooLong};

use std::env::{Env, FillError};
use std::error::Error;
use std::fs::File;
use std::io::{ErrorKind, Read, Stdin};
use std::{fmt, io, str};

// What ended a program before its input did. As a text it calls the input standard input: a program that reads a file says the file's name.
#[derive(Debug, Drop)]
pub enum Failed {
    Input(io::Error),
    Output(io::Error),
}

impl fmt::Display for Failed {
    fn fmt<W: fmt::Write>(&self, f: &mut fmt::Formatter<W>) -> fmt::Result {
        match self {
            Failed::Input(e) => write!(f, "standard input: {e}"),
            Failed::Output(e) => write!(f, "standard output: {e}"),
        }
    }
}

impl Error for Failed {}

// One read, behind the bytes that have come of a record that has begun, which stay: how many bytes the buffer holds then, as many as before only at
// the end of the input.
pub fn read_behind<R: Read>(from: &mut R, input: &mut [u8], begun: usize) -> io::Result<usize>
    requires { begun ≤ length input.old }
    ensures held { IfOk result (λ held. (begun ≤ held) × IsPrefixLen held input.new) }
    ensures input_unchanged { take begun input.new ≡ take begun input.old }
    ensures moved { IfOk result (λ held. Consumes (R.remaining from.old) (R.remaining from.new) (take (held - begun) (drop begun input.new))) }
    ensures failed { OnErr result (Keeps (R.remaining from.old) (R.remaining from.new)) }
    ensures none { IfOk result (λ held. begun < length input.new → held ≡ begun → IsAtEnd (R.remaining from.old)) }
{
    let bytes = from.read(&mut input[begun..])?;
    Ok(begun + bytes)
}

// Moves the bytes from one place on until another to the start of the buffer: those of a record that has begun, for the next read to go on behind.
#[tactic(auto, using(crate::proofs::Moved::pasted_moved))]
pub fn keep(input: &mut [u8], from: usize, until: usize)
    requires { (from ≤ until) × (until ≤ length input.old) }
    ensures { input.new ≡ moved from (until - from) input.old }
{
    input.copy_within(from..until, 0);
}

// Where records come from.
#[derive(Drop)]
pub enum Source {
    Standard(Stdin),
    File(File),
}

impl Read for Source {
    fn read(&mut self, buf: &mut [u8]) -> io::Result<usize> {
        match self {
            Source::Standard(stdin) => stdin.read(buf),
            Source::File(file) => file.read(buf),
        }
    }
}

pub fn has_argument(rt: &impl Env, i: usize) -> bool {
    !matches!(rt.arg(i, &mut []), Err(FillError::NotPresent))
}

// The bytes of the longest name that a file is opened by.
pub const LONGEST_NAME: usize = 4096;

// What an argument names: standard input where it is missing or `-`, and else a file. Of a name that is longer than the room for it, and so than any
// file's, only the first bytes are there to be said.
#[derive(Clone, Copy)]
pub enum Named<'a> {
    Standard,
    File(&'a [u8]),
    TooLong(&'a [u8]),
}

impl<'a> Named<'a> {
    pub fn by_argument(rt: &impl Env, i: usize, room: &'a mut [u8]) -> Named<'a>
        requires { LONGEST_NAME ≤ length room.old }
        ensures { length (said result) ≤ length room.old }
    {
        match rt.arg(i, room) {
            Ok(1) if room[0] == b'-' => Named::Standard,
            Ok(length) => Named::File(&room[..length]),
            Err(FillError::NotPresent) => Named::Standard,
            Err(FillError::TooLong) => Named::TooLong(room),
        }
    }

    pub fn as_bytes(&self) -> &[u8]
        ensures { result.now ≡ said self.now }
    {
        match self {
            Named::Standard => b"standard input",
            Named::File(name) | Named::TooLong(name) => name,
        }
    }

    // The library names files by text.
    pub fn open(&self, rt: &HostRuntime) -> io::Result<Source>
        ensures standard { self.now ≡ Named.Standard → IsOkAnd result (λ source. (from : Stdin) × (source ≡ Source.Standard from)) }
        ensures too_long { IsTooLong self.now → IsErr result }
    {
        match self {
            Named::Standard => Ok(Source::Standard(rt.stdin())),
            Named::File(name) => match str::from_utf8(name) {
                Ok(path) => Ok(Source::File(File::open(rt, path)?)),
                Err(_) => Err(io::Error::from(ErrorKind::InvalidFilename)),
            },
            Named::TooLong(_) => Err(io::Error::from(ErrorKind::InvalidFilename)),
        }
    }
}
