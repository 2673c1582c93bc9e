// Shows what `scale` answers: the figures of document 01 and of byte 255, whole outputs of each side and size, and each refusal.
#![tactic(auto)]

use scale::{ByteId, Side, Size, ThreadId};
use std::{fmt, io};

// The figures' metadata word, in every lane.
const WORD: [u32; 32] = [0x807F0100; 32];

// A word whose high byte is 255, in every lane.
const HIGH_NAN: [u32; 32] = [0xFF7F0100; 32];

// Lane i holds i times 08040201 (hexadecimal): its bytes are i, 2i, 4i and 8i.
const VARIED: [u32; 32] = [
    0x00000000, 0x08040201, 0x10080402, 0x180C0603, 0x20100804, 0x28140A05, 0x30180C06, 0x381C0E07,
    0x40201008, 0x48241209, 0x5028140A, 0x582C160B, 0x6030180C, 0x68341A0D, 0x70381C0E, 0x783C1E0F,
    0x80402010, 0x88442211, 0x90482412, 0x984C2613, 0xA0502814, 0xA8542A15, 0xB0582C16, 0xB85C2E17,
    0xC0603018, 0xC8643219, 0xD068341A, 0xD86C361B, 0xE070381C, 0xE8743A1D, 0xF0783C1E, 0xF87C3E1F,
];

// Numbers of the longest output.
const LONGEST: usize = 64;

// A call's size, side, byte-id and thread-id, and the length of its output.
#[derive(Clone, Copy)]
struct Call(u32, u32, u32, u32, usize);

impl fmt::Display for Call {
    fn fmt<W: fmt::Write>(&self, f: &mut fmt::Formatter<W>) -> fmt::Result {
        let Call(size, side, byte_id, thread_id, _) = *self;
        write!(f, "size {size} side ")?;
        match side {
            Side::A => f.write_str("A")?,
            Side::B => f.write_str("B")?,
            _ => write!(f, "{side}")?,
        }
        write!(f, " byte-id {byte_id} thread-id {thread_id}")
    }
}

// The call, the lengths of its buffers, and what it answers.
fn show(rt: &impl Print, metadata: &[u32], call: Call) -> io::Result<()> {
    let Call(size, side, byte_id, thread_id, numbers) = call;
    let mut room: [i32; LONGEST] = [0; LONGEST];
    let out = &mut room[..numbers.min(LONGEST)];
    print!(rt;
        "{call}, {} words to {} numbers:",
        metadata.len(),
        out.len()
    )?;
    let answer = scale::scale(
        Size(size),
        Side(side),
        ByteId(byte_id),
        ThreadId(thread_id),
        metadata,
        out,
    );
    match answer {
        Ok(()) => print_all(rt, out)?,
        Err(refusal) => print!(rt; " {refusal}")?,
    }
    println!(rt)
}

fn print_all(rt: &impl Print, numbers: &[i32]) -> io::Result<()> {
    for number in numbers {
        print!(rt; " {number}")?;
    }
    Ok(())
}

fn show_all(rt: &impl Print, metadata: &[u32], calls: &[Call]) -> io::Result<()> {
    for call in calls {
        show(rt, metadata, *call)?;
    }
    Ok(())
}

fn figures(rt: &impl Print) -> io::Result<()> {
    let calls = [
        Call(1, Side::B, 0, 0, 8),
        Call(1, Side::B, 1, 0, 8),
        Call(1, Side::B, 2, 0, 8),
        Call(1, Side::B, 3, 0, 8),
        Call(2, Side::B, 2, 0, 16),
        Call(2, Side::B, 1, 0, 16),
    ];
    show_all(rt, &WORD, &calls)
}

fn figures_of_255(rt: &impl Print) -> io::Result<()> {
    let calls = [
        Call(1, Side::B, 3, 0, 8),
        Call(1, Side::B, 0, 0, 8),
        Call(1, Side::B, 1, 0, 8),
        Call(1, Side::B, 2, 0, 8),
        Call(2, Side::A, 2, 1, 32),
    ];
    show_all(rt, &HIGH_NAN, &calls)
}

// 255 in byte 2 of lane 1 only, and 254 in every other. The lane and the byte are chosen, then the byte is not, then the lane is not.
fn one_nan(rt: &impl Print) -> io::Result<()> {
    let mut metadata: [u32; 32] = [0xFEFEFEFE; 32];
    metadata[1] = 0xFEFFFEFE;
    let calls = [
        Call(4, Side::A, 0, 0, 64),
        Call(2, Side::A, 2, 0, 32),
        Call(1, Side::A, 2, 0, 16),
        Call(4, Side::B, 0, 1, 32),
        Call(1, Side::A, 0, 0, 16),
        Call(2, Side::B, 0, 1, 16),
        Call(1, Side::A, 2, 1, 16),
        Call(4, Side::B, 0, 0, 32),
    ];
    show_all(rt, &metadata, &calls)
}

fn whole_outputs(rt: &impl Print) -> io::Result<()> {
    let calls = [
        Call(1, Side::A, 0, 0, 16),
        Call(1, Side::A, 3, 1, 16),
        Call(2, Side::A, 0, 1, 32),
        Call(2, Side::A, 2, 0, 32),
        Call(4, Side::A, 0, 0, 64),
        Call(4, Side::A, 0, 1, 64),
        Call(1, Side::B, 1, 0, 8),
        Call(1, Side::B, 2, 1, 8),
        Call(2, Side::B, 0, 2, 16),
        Call(2, Side::B, 2, 3, 16),
        Call(4, Side::B, 0, 3, 32),
    ];
    show_all(rt, &VARIED, &calls)
}

fn refusals(rt: &impl Print) -> io::Result<()> {
    let calls = [
        Call(0, Side::A, 0, 0, 16),
        Call(3, Side::A, 0, 0, 16),
        Call(1, 2, 0, 0, 16),
        Call(1, Side::A, 4, 0, 16),
        Call(2, Side::B, 3, 0, 16),
        Call(4, Side::B, 2, 0, 16),
        Call(1, Side::A, 0, 2, 16),
        Call(1, Side::B, 0, 4, 16),
    ];
    show_all(rt, &WORD, &calls)?;
    show(rt, &WORD[..31], Call(1, Side::A, 0, 0, 16))?;
    show(rt, &WORD, Call(1, Side::B, 0, 0, 16))
}

// Each call has every refusal from its first on.
fn several(rt: &impl Print) -> io::Result<()> {
    let calls = [
        Call(4294967295, 4294967295, 4294967295, 4294967295, 5),
        Call(1, 2, 4, 4, 5),
        Call(1, Side::A, 4, 4, 5),
        Call(1, Side::A, 3, 4, 5),
        Call(1, Side::A, 3, 1, 5),
    ];
    show_all(rt, &[], &calls)?;
    let last = Call(1, Side::A, 3, 1, 5);
    show(rt, &WORD, last)?;
    show(rt, &HIGH_NAN[..31], last)?;
    show(rt, &HIGH_NAN, last)
}

fn main(rt: HostRuntime) -> io::Result<()> {
    println!(rt; "metadata 807F0100 in every lane")?;
    figures(&rt)?;
    println!(rt; "metadata FF7F0100 in every lane")?;
    figures_of_255(&rt)?;
    println!(rt; "metadata FEFFFEFE in lane 1, FEFEFEFE in the others")?;
    one_nan(&rt)?;
    println!(rt; "metadata i times 08040201 in lane i")?;
    whole_outputs(&rt)?;
    println!(rt; "one refusal applies")?;
    refusals(&rt)?;
    println!(rt; "several refusals apply")?;
    several(&rt)
}
