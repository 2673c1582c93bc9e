// Shows runs: document 01's figures over 4,096 blocks, the most ones of document 02's kind 14, a clamped run in two orders, document 02's
// marks, runs made up by hand, and each refusal.
#![tactic(auto)]

use kinds::{Kind, Mode, Signs};
use run::Run;
use std::{fmt, io};
use test_print::{Answer, first_other};

// Kind 3: every element -128, every element 127, and C 100 below the limit.
const A_LOW: [u32; 128] = [0x8080_8080; 128];

const B_LOW: [u32; 64] = [0x8080_8080; 64];

const B_HIGH: [u32; 64] = [0x7F7F_7F7F; 64];

const C_NEAR: [u32; 128] = [2_147_483_547; 128];

// C at the limit.
const C_TOP: [u32; 128] = [2_147_483_647; 128];

// Kind 1: every element 1.
const A_ONES: [u32; 32] = [0xFFFF_FFFF; 32];

const ZEROS: [u32; 128] = [0; 128];

// What stands in D before a read.
const BEFORE: u32 = 77;

// A run 0 throughout.
const ZERO: Run = Run {
    kind: Kind(0),
    signs: Signs(0),
    mode: Mode(0),
    blocks: 0,
    sums: ZEROS,
    marks: [0; 4],
};

// How many words, and the number that all have.
#[derive(Clone, Copy)]
struct Words<'a>(&'a [u32]);

impl fmt::Display for Words<'_> {
    fn fmt<W: fmt::Write>(&self, f: &mut fmt::Formatter<W>) -> fmt::Result {
        let n = self.0.len();
        match self.0 {
            [w, ..] if first_other(self.0, *w).is_none() => {
                write!(f, "{n} times {}", w.cast_signed())
            }
            _ => write!(f, "{n} that differ"),
        }
    }
}

// Each word, behind a space.
#[derive(Clone, Copy)]
struct Each<'a>(&'a [u32]);

impl fmt::Display for Each<'_> {
    fn fmt<W: fmt::Write>(&self, f: &mut fmt::Formatter<W>) -> fmt::Result {
        for word in self.0 {
            write!(f, " {word}")?;
        }
        Ok(())
    }
}

// The run on which a call is made.
#[derive(Clone, Copy)]
struct On<'a>(&'a Run);

impl fmt::Display for On<'_> {
    fn fmt<W: fmt::Write>(&self, f: &mut fmt::Formatter<W>) -> fmt::Result {
        let run = self.0;
        let (kind, signs, mode, blocks) = (run.kind.0, run.signs.0, run.mode.0, run.blocks);
        write!(f, "kind {kind} signs {signs} mode {mode} blocks {blocks}")
    }
}

// The used sums, read into d, the rest, and the four words of marks.
fn print_run(rt: &impl Print, before: &str, run: Run, d: &mut [u32]) -> io::Result<()> {
    print!(rt; "{before}{} blocks, sums ", run.blocks)?;
    match run.read(d).verdict {
        Ok(()) => print!(rt; "{}", Words(d))?,
        Err(refusal) => print!(rt; "{refusal}")?,
    }
    print_unused(rt, &run.sums, d.len())?;
    print_marks(rt, run)
}

fn print_unused(rt: &impl Print, sums: &[u32], used: usize) -> io::Result<()> {
    match sums.get(used..) {
        None | Some([]) => Ok(()),
        Some(unused) => print!(rt; ", unused {}", Words(unused)),
    }
}

fn print_marks(rt: &impl Print, run: Run) -> io::Result<()> {
    let mut marks = [BEFORE; 4];
    match run.marks(&mut marks).verdict {
        Ok(()) => println!(rt; ", marks{}", Each(&marks)),
        Err(refusal) => println!(rt; ", marks {refusal}"),
    }
}

fn state(before: Run, after: Run) -> &'static str {
    if before == after {
        "as it was"
    } else {
        "changed"
    }
}

// A run made up by hand: its kind, signs, mode and blocks.
#[derive(Clone, Copy)]
struct Made(u32, u32, u32, u32);

impl Made {
    // Every sum is 5.
    fn run(self, marks: [u32; 4]) -> Run {
        let Made(kind, signs, mode, blocks) = self;
        Run {
            kind: Kind(kind),
            signs: Signs(signs),
            mode: Mode(mode),
            blocks,
            sums: [5; 128],
            marks,
        }
    }
}

// The run after the block was fed so many times.
fn fed(run: Run, times: u32, a: &[u32], b: &[u32]) -> Run {
    (0..times).fold(run, |run, _| run.feed(a, b).run)
}

fn opened(kind: u32, mode: u32, c: &[u32]) -> Run {
    Run::open(Kind(kind), Signs(0), Mode(mode), c).run
}

fn show_open(rt: &impl Print, kind: u32, signs: u32, mode: u32, c: &[u32]) -> io::Result<()> {
    let opened = Run::open(Kind(kind), Signs(signs), Mode(mode), c);
    let n = c.len();
    let answer = Answer(opened.verdict);
    print!(rt; "open kind {kind} signs {signs} mode {mode}, C {n} words: {answer}")?;
    if opened.run == ZERO {
        print!(rt; ", run 0 throughout")?;
    }
    println!(rt)
}

fn show_feed(rt: &impl Print, run: Run, a: &[u32], b: &[u32]) -> io::Result<()> {
    let next = run.feed(a, b);
    let answer = Answer(next.verdict);
    print!(rt;
        "feed {}, A {} words, B {} words: {answer}",
        On(&run),
        a.len(),
        b.len()
    )?;
    println!(rt; ", run {}", state(run, next.run))
}

fn show_read(rt: &impl Print, run: Run, d: &mut [u32]) -> io::Result<()> {
    let read = run.read(d);
    let answer = Answer(read.verdict);
    print!(rt; "read {}, D {} words: {answer}, D ", On(&run), d.len())?;
    match first_other(d, BEFORE) {
        None => print!(rt; "as it was")?,
        Some(_) => print!(rt; "{}", Words(d))?,
    }
    println!(rt; ", run {}", state(run, read.run))
}

fn show_marks(rt: &impl Print, run: Run, out: &mut [u32]) -> io::Result<()> {
    let read = run.marks(out);
    let answer = Answer(read.verdict);
    print!(rt; "marks {}, {} words: {answer},", On(&run), out.len())?;
    match first_other(out, BEFORE) {
        None => print!(rt; " words as they were")?,
        Some(_) => print!(rt; "{}", Each(out))?,
    }
    println!(rt; ", run {}", state(run, read.run))
}

// Kind 3: the block of A_LOW and b fed so many times, and what the run then has.
fn print_fed(rt: &impl Print, before: &str, run: Run, times: u32, b: &[u32]) -> io::Result<Run> {
    let after = fed(run, times, &A_LOW, b);
    print_run(rt, before, after, &mut [BEFORE; 128])?;
    Ok(after)
}

// Kind 1.
fn print_ones(rt: &impl Print, before: &str, run: Run) -> io::Result<()> {
    print_run(rt, before, run, &mut [BEFORE; 64])
}

// Kind 14: the most that 4,096 blocks count.
fn most_ones(rt: &impl Print) -> io::Result<()> {
    let run = opened(14, 0, &ZEROS);
    let full = fed(run, 4096, &[0xFFFF_FFFF; 128], &[0; 64]);
    print_run(rt, "fed 4096 times: ", full, &mut [BEFORE; 128])
}

// The -128 block, 4,095 times, once more, and a further time.
fn figures(rt: &impl Print, mode: u32) -> io::Result<()> {
    print!(rt; "mode {mode}")?;
    let run = opened(3, mode, &ZEROS);
    print_fed(rt, ", opened: ", run, 0, &B_LOW)?;
    let many = print_fed(rt, "fed 4095 times: ", run, 4095, &B_LOW)?;
    let full = print_fed(rt, "once more: ", many, 1, &B_LOW)?;
    show_feed(rt, full, &A_LOW, &B_LOW)
}

// Blocks P and N in both orders.
fn orders(rt: &impl Print, mode: u32) -> io::Result<()> {
    let run = opened(3, mode, &C_NEAR);
    for (order, first, second) in [
        (", P then N: ", &B_LOW, &B_HIGH),
        (", N then P: ", &B_HIGH, &B_LOW),
    ] {
        print!(rt; "mode {mode}")?;
        let half = fed(run, 1, &A_LOW, first);
        print_fed(rt, order, half, 1, second)?;
    }
    Ok(())
}

// Kind 3 from the limit: a zero block, the -128 block, and down again.
fn limits(rt: &impl Print, mode: u32) -> io::Result<()> {
    print!(rt; "mode {mode}")?;
    let run = opened(3, mode, &C_TOP);
    let held = fed(run, 1, &ZEROS, &B_LOW);
    print_fed(rt, ", a zero block: ", held, 0, &B_LOW)?;
    let past = print_fed(rt, "block P: ", held, 1, &B_LOW)?;
    print_fed(rt, "block N: ", past, 1, &B_HIGH)?;
    Ok(())
}

// Sum word 33 alone stands at the limit.
fn one_at_the_limit(rt: &impl Print) -> io::Result<()> {
    let mut c = ZEROS;
    c[33] = 2_147_483_647;
    let before = "sum word 33 at the limit, the others 0, block P: ";
    print_fed(rt, before, opened(3, 1, &c), 1, &B_LOW)?;
    Ok(())
}

fn by_hand(rt: &impl Print) -> io::Result<()> {
    let run = Made(1, 0, 0, 7).run([0; 4]);
    print_ones(rt, "as it is: ", run)?;
    print_ones(rt, "fed twice: ", fed(run, 2, &A_ONES, &[0; 32]))?;
    print_ones(rt, "opened from C all 0: ", opened(1, 0, &[0; 64]))
}

// Kind, signs and mode, and how many words of C.
const OPENINGS: [(u32, u32, u32, usize); 16] = [
    (0, 0, 0, 128),
    (15, 0, 0, 128),
    (6, 0, 0, 128),
    (10, 0, 0, 128),
    (3, 4, 0, 128),
    (3, 0, 2, 128),
    (1, 1, 0, 64),
    (13, 1, 0, 128),
    (14, 2, 1, 128),
    (3, 0, 0, 127),
    (1, 0, 0, 128),
    (11, 3, 1, 128),
    (15, 4, 2, 0),
    (6, 4, 2, 0),
    (5, 4, 2, 0),
    (5, 3, 1, 0),
];

fn open_refusals(rt: &impl Print) -> io::Result<()> {
    for (kind, signs, mode, n) in OPENINGS {
        if let Some(c) = ZEROS.get(..n) {
            show_open(rt, kind, signs, mode, c)?;
        }
    }
    Ok(())
}

// A block of so many words of A and so many of B.
fn feed_with(rt: &impl Print, run: Run, a: usize, b: usize) -> io::Result<()> {
    if let Some(a) = A_LOW.get(..a)
        && let Some(b) = A_LOW.get(..b)
    {
        show_feed(rt, run, a, b)?;
    }
    Ok(())
}

// A run, and how many words of A and of B.
const FEEDS: [(Made, usize, usize); 16] = [
    (Made(0, 0, 0, 0), 128, 64),
    (Made(6, 0, 0, 0), 128, 64),
    (Made(15, 0, 0, 0), 128, 64),
    (Made(3, 4, 0, 0), 128, 64),
    (Made(3, 0, 2, 0), 128, 64),
    (Made(1, 1, 0, 0), 32, 32),
    (Made(13, 1, 0, 0), 64, 32),
    (Made(3, 0, 0, 4097), 128, 64),
    (Made(3, 0, 0, 4096), 128, 64),
    (Made(3, 0, 0, 0), 127, 64),
    (Made(3, 0, 0, 0), 128, 63),
    (Made(3, 0, 0, 0), 64, 128),
    (Made(6, 4, 2, 4097), 64, 128),
    (Made(3, 0, 0, 4096), 64, 128),
    (Made(3, 0, 0, 4095), 128, 64),
    (Made(12, 3, 1, 0), 32, 32),
];

fn feed_refusals(rt: &impl Print) -> io::Result<()> {
    for (made, a, b) in FEEDS {
        feed_with(rt, made.run([0; 4]), a, b)?;
    }
    Ok(())
}

// A read into a D of so many words.
fn read_into(rt: &impl Print, run: Run, n: usize) -> io::Result<()> {
    let mut d = [BEFORE; 128];
    if let Some(d) = d.get_mut(..n) {
        show_read(rt, run, d)?;
    }
    Ok(())
}

// A run, and how many words of D.
const READS: [(Made, usize); 10] = [
    (Made(0, 0, 0, 0), 128),
    (Made(6, 0, 0, 0), 128),
    (Made(3, 4, 0, 0), 128),
    (Made(3, 0, 2, 0), 128),
    (Made(1, 1, 0, 0), 64),
    (Made(3, 0, 0, 4097), 128),
    (Made(3, 0, 0, 0), 127),
    (Made(1, 0, 0, 0), 128),
    (Made(6, 4, 2, 4097), 0),
    (Made(3, 0, 0, 4096), 128),
];

fn read_refusals(rt: &impl Print) -> io::Result<()> {
    for (made, n) in READS {
        read_into(rt, made.run([0; 4]), n)?;
    }
    Ok(())
}

// The marks into so many words.
fn marks_into(rt: &impl Print, run: Run, n: usize) -> io::Result<()> {
    let mut out = [BEFORE; 8];
    if let Some(out) = out.get_mut(..n) {
        show_marks(rt, run, out)?;
    }
    Ok(())
}

// A run, its marks, which only the last can have, and how many words of A, of B and of D.
const STRAYS: [(Made, [u32; 4], usize, usize, usize); 6] = [
    (Made(3, 0, 0, 0), [1, 0, 0, 0], 128, 64, 128),
    (Made(1, 0, 1, 0), [0, 1, 0, 0], 32, 32, 64),
    (Made(13, 0, 1, 0), [0, 0, 0, 0x8000_0000], 64, 32, 128),
    (Made(11, 0, 1, 0), [0, 0, 1, 0], 32, 32, 64),
    (Made(12, 0, 1, 0), [0, 0, 0, 0x8000_0000], 32, 32, 64),
    (Made(11, 0, 1, 0), [1, 0x8000_0000, 0, 0], 32, 32, 64),
];

// Each call on each.
fn strays(rt: &impl Print) -> io::Result<()> {
    for (made, marks, a, b, d) in STRAYS {
        let run = made.run(marks);
        feed_with(rt, run, a, b)?;
        read_into(rt, run, d)?;
        marks_into(rt, run, 4)?;
    }
    Ok(())
}

// A run, its marks, and how many words they are put into.
const MARKED: [(Made, [u32; 4], usize); 8] = [
    (Made(6, 4, 2, 4097), [0, 0, 0, 0], 3),
    (Made(3, 0, 1, 4097), [0, 0, 0, 0], 4),
    (Made(3, 0, 1, 0), [1, 2, 3, 4], 3),
    (Made(3, 0, 1, 0), [1, 2, 3, 4], 5),
    (Made(3, 0, 1, 0), [1, 2, 3, 4], 0),
    (Made(3, 0, 1, 0), [1, 2, 3, 4], 4),
    (Made(3, 0, 0, 4096), [0, 0, 0, 0], 4),
    (Made(14, 0, 1, 0), [0, 0, 0, 0], 4),
];

fn marks_refusals(rt: &impl Print) -> io::Result<()> {
    for (made, marks, n) in MARKED {
        marks_into(rt, made.run(marks), n)?;
    }
    Ok(())
}

fn main(rt: HostRuntime) -> io::Result<()> {
    println!(rt; "kind 3, signs 0, C all 0, block: all A and all B -128")?;
    figures(&rt, 0)?;
    figures(&rt, 1)?;
    println!(rt; "kind 3, signs 0, C all 2147483547, block P adds 524288, block N adds -520192")?;
    orders(&rt, 0)?;
    orders(&rt, 1)?;
    println!(rt; "kind 3, signs 0, C all 2147483647")?;
    limits(&rt, 0)?;
    limits(&rt, 1)?;
    one_at_the_limit(&rt)?;
    println!(rt; "kind 14, signs 0, mode 0, C all 0, block: all A 1, all B 0")?;
    most_ones(&rt)?;
    println!(rt; "made up by hand: kind 1, mode 0, 7 blocks, all sums 5, block: all A 1, all B 0")?;
    by_hand(&rt)?;
    println!(rt; "refusals, number and detail")?;
    open_refusals(&rt)?;
    feed_refusals(&rt)?;
    read_refusals(&rt)?;
    strays(&rt)?;
    marks_refusals(&rt)
}
