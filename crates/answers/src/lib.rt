// What every call answers where it does not do what it was asked: a refusal, which is a number and a detail. A call is a `Result` with it.
#![tactic(auto)]

ghost use Rattle.std.specs.Prelude.{◌≡◌};
ghost use Rattle.answers.specs.Refusals.{number_of, detail_of};

use std::error::Error;
use std::fmt;

// The refusals of the whole bench, in the order of their numbers, with the detail where one has it.
#[derive(Clone, Copy, Debug, PartialEq, Eq)]
pub enum Refusal {
    UnknownKind,
    UnknownRole,
    NotArithmetic,
    BadSelectors,
    WrongLength(u32),
    Outside,
    TooWide(u32),
    BadScale(u32),
    RunFull,
    BadRun,
    UnusedNotZero,
    ScaleNan(u32),
}

impl Refusal {
    // Its number: document 01's, or of UnusedNotZero and ScaleNan document 02's.
    pub fn number(self) -> u32
        ensures { result ≡ number_of self }
    {
        match self {
            Refusal::UnknownKind => 1,
            Refusal::UnknownRole => 2,
            Refusal::NotArithmetic => 3,
            Refusal::BadSelectors => 4,
            Refusal::WrongLength(_) => 5,
            Refusal::Outside => 6,
            Refusal::TooWide(_) => 7,
            Refusal::BadScale(_) => 8,
            Refusal::RunFull => 9,
            Refusal::BadRun => 10,
            Refusal::UnusedNotZero => 11,
            Refusal::ScaleNan(_) => 12,
        }
    }

    // Its detail: which buffer, which entry, which selector, which number of the output.
    pub fn detail(self) -> u32
        ensures { result ≡ detail_of self }
    {
        match self {
            Refusal::UnknownKind => 0,
            Refusal::UnknownRole => 0,
            Refusal::NotArithmetic => 0,
            Refusal::BadSelectors => 0,
            Refusal::WrongLength(buffer) => buffer,
            Refusal::Outside => 0,
            Refusal::TooWide(index) => index,
            Refusal::BadScale(selector) => selector,
            Refusal::RunFull => 0,
            Refusal::BadRun => 0,
            Refusal::UnusedNotZero => 0,
            Refusal::ScaleNan(index) => index,
        }
    }
}

// As the programs print it: its number and its detail.
impl fmt::Display for Refusal {
    fn fmt<W: fmt::Write>(&self, f: &mut fmt::Formatter<W>) -> fmt::Result {
        write!(f, "refused {} {}", self.number(), self.detail())
    }
}

impl Error for Refusal {}
