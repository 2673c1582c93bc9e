// Works out document 01's bench figures on places and steps through the public calls, in the paper's order, one of them by the plain step too; then
// figures of document 02's kinds 11 to 14, and of its words and bits.
#![tactic(auto)]

ghost use Rattle.std.specs.Prelude.{◌≤◌};

use kinds::{Column, Element, Kind, Lane, Mode, Role, Row, Signs};
use places::{Held, Placed};
use std::{fmt, io};
use test_print::first_other;

// Words of four bytes -128, of ones, and the greatest sum.
const LOW: u32 = 0x80808080;

const ONES: u32 = 0xFFFFFFFF;

const TOP: u32 = 2147483647;

#[derive(Clone, Copy)]
enum Call {
    // Kind, signs and mode.
    Step(u32, u32, u32),
    // Kind.
    Plain(u32),
}

// What is printed before a call's answer, and the word that each of A, B and C holds throughout.
#[derive(Clone, Copy)]
struct Figure(&'static str, Call, [u32; 3]);

// Kind, role, lane and element.
const PLACES: [(u32, u32, u32, u32); 7] = [
    (5, Role::A, 0, 16),
    (3, Role::A, 5, 9),
    (6, Role::A, 5, 1),
    (8, Role::A, 5, 1),
    (3, Role::B, 31, 7),
    (2, Role::C, 6, 3),
    (10, Role::B, 6, 0),
];

// Kind, role, row and column.
const HOLDERS: [(u32, u32, u32, u32); 2] = [(4, Role::A, 9, 13), (9, Role::A, 15, 7)];

const STEPS: [Figure; 9] = [
    Figure(
        "kind 3, all A and B -128, C 0, signed",
        Call::Step(3, 0, 0),
        [LOW, LOW, 0],
    ),
    Figure(
        "kind 3, all A and B -128, C 0, plain step",
        Call::Plain(3),
        [LOW, LOW, 0],
    ),
    Figure(
        "kind 3, all A and B -128, C 2147483647, wrapped",
        Call::Step(3, 0, 0),
        [LOW, LOW, TOP],
    ),
    Figure(
        "kind 3, all A and B -128, C 2147483647, clamped",
        Call::Step(3, 0, 1),
        [LOW, LOW, TOP],
    ),
    Figure(
        "kind 1, A all ones, B zero, C 0, xor",
        Call::Step(1, 0, 0),
        [ONES, 0, 0],
    ),
    Figure(
        "kind 1, A all ones, B zero, C 0, and",
        Call::Step(1, 0, 1),
        [ONES, 0, 0],
    ),
    Figure(
        "kind 1, A all ones, B zero, C 2147483647, xor",
        Call::Step(1, 0, 0),
        [ONES, 0, TOP],
    ),
    Figure(
        "kind 2, A all FF, B all 1, C 0, signs 0",
        Call::Step(2, 0, 0),
        [ONES, 0x01010101, 0],
    ),
    Figure(
        "kind 2, A all FF, B all 1, C 0, signs 1",
        Call::Step(2, 1, 0),
        [ONES, 0x01010101, 0],
    ),
];

const LATER_PLACES: [(u32, u32, u32, u32); 3] = [
    (14, Role::A, 31, 127),
    (13, Role::A, 5, 33),
    (12, Role::B, 31, 7),
];

const LATER_STEPS: [Figure; 7] = [
    Figure(
        "kind 11, all A and B -128, C 0, signed",
        Call::Step(11, 0, 0),
        [LOW, LOW, 0],
    ),
    Figure(
        "kind 12, all A and B -8, C 0, signed",
        Call::Step(12, 0, 0),
        [0x88888888, 0x88888888, 0],
    ),
    Figure(
        "kind 12, all A and B F, C 0, unsigned",
        Call::Step(12, 3, 0),
        [ONES, ONES, 0],
    ),
    Figure(
        "kind 13, A all ones, B zero, C 0, xor",
        Call::Step(13, 0, 0),
        [ONES, 0, 0],
    ),
    Figure(
        "kind 13, A all ones, B zero, C 0, and",
        Call::Step(13, 0, 1),
        [ONES, 0, 0],
    ),
    Figure(
        "kind 14, A all ones, B zero, C 0, xor",
        Call::Step(14, 0, 0),
        [ONES, 0, 0],
    ),
    Figure(
        "kind 14, A and B all ones, C 0, and",
        Call::Step(14, 0, 1),
        [ONES, ONES, 0],
    ),
];

const SPOTS: [(u32, u32, u32, u32); 3] = [
    (9, Role::A, 0, 3),
    (7, Role::C, 0, 3),
    (14, Role::A, 0, 127),
];

fn main(rt: HostRuntime) -> io::Result<()> {
    places(&rt, &PLACES)?;
    holders(&rt)?;
    steps(&rt, &STEPS)?;
    places(&rt, &LATER_PLACES)?;
    steps(&rt, &LATER_STEPS)?;
    places(&rt, &SPOTS)
}

fn places(rt: &impl Print, asked: &[(u32, u32, u32, u32)]) -> io::Result<()> {
    for &(kind, role, lane, element) in asked {
        let placed = places::place(Kind(kind), Role(role), Lane(lane), Element(element));
        print!(rt;
            "kind {kind} {} lane {lane} element {element}: ",
            letter(role)
        )?;
        match placed {
            Ok(at) => {
                let Placed {
                    row,
                    column,
                    word,
                    bit,
                } = at;
                println!(rt; "({}, {}) word {} bit {}", row.0, column.0, word.0, bit.0)?;
            }
            Err(refusal) => println!(rt; "{refusal}")?,
        }
    }
    Ok(())
}

fn letter(role: u32) -> char {
    match role {
        Role::A => 'A',
        Role::B => 'B',
        _ => 'C',
    }
}

fn holders(rt: &impl Print) -> io::Result<()> {
    for (kind, role, row, column) in HOLDERS {
        let held = places::find(Kind(kind), Role(role), Row(row), Column(column));
        print!(rt; "kind {kind} {} ({row}, {column}): ", letter(role))?;
        match held {
            Ok(Held { lane, element }) => println!(rt; "lane {} element {}", lane.0, element.0)?,
            Err(refusal) => println!(rt; "{refusal}")?,
        }
    }
    Ok(())
}

// By the lengths of the kind's buffers.
fn steps(rt: &impl Print, figures: &[Figure]) -> io::Result<()> {
    for figure in figures {
        match figure.1 {
            Call::Step(1 | 11 | 12, ..) => step::<32, 32, 64>(rt, *figure)?,
            Call::Step(2 | 13, ..) => step::<64, 32, 128>(rt, *figure)?,
            _ => step::<128, 64, 128>(rt, *figure)?,
        }
    }
    Ok(())
}

fn step<const A: usize, const B: usize, const C: usize>(
    rt: &impl Print,
    figure: Figure,
) -> io::Result<()>
    requires { (A ≤ 128) × (B ≤ 64) × (C ≤ 128) }
{
    let Figure(what, call, [a, b, c]) = figure;
    let a = [a; A];
    let b = [b; B];
    let c = [c; C];
    let mut d = [7; C];
    let answer = match call {
        Call::Step(kind, signs, mode) => {
            step::step(Kind(kind), Signs(signs), Mode(mode), &a, &b, &c, &mut d)
        }
        Call::Plain(kind) => step::plain_step(Kind(kind), &a, &b, &c, &mut d),
    };
    match answer {
        Ok(()) => println!(rt; "{what}: {}", Sums(&d)),
        Err(refusal) => println!(rt; "{what}: {refusal}"),
    }
}

// The number that all sums have.
#[derive(Clone, Copy)]
struct Sums<'a>(&'a [u32]);

impl fmt::Display for Sums<'_> {
    fn fmt<W: fmt::Write>(&self, f: &mut fmt::Formatter<W>) -> fmt::Result {
        let n = self.0.len();
        match self.0 {
            [w, ..] if first_other(self.0, *w).is_none() => {
                write!(f, "{} at all {n} places", w.cast_signed())
            }
            _ => write!(f, "differs"),
        }
    }
}
