// Step records, as the card's logger writes them: 1,800 bytes with kind, signs, mode, five reserved bytes, then the words of A, B, C and D.
#![tactic(auto)]

ghost use Rattle.std.specs.Prelude.{◌≡◌, ◌+◌, ◌*◌, ◌^◌, ◌≤◌, length, drop, not, ◌==◌, IfOk};
ghost use Rattle.std.specs.List.{list_any};
ghost use Rattle.answers.specs.Promised.{Replies, Tells};
ghost use Rattle.kinds.specs.Kinds.{entry_of, Arithmetic};
ghost use Rattle.step.specs.Workers.{told_line};
ghost use Rattle.records.specs.Records.{record_bytes, kind_in, signs_in, word_at, words_in, not_zero, stray_tail, unused_not_zero, mode_for, mode_asked, record_call};

use answers::Refusal;
use buffers::Lengths;
use kinds::{Entry, Kind, Mode, Signs};
use step_work::Selected;

// The bytes of a record.
pub const BYTES: usize = 1800;

// Where the parts begin; each ends where the next one begins, and D at the end of the record.
pub const BEGIN_A: usize = 8;

pub const BEGIN_B: usize = 520;

pub const BEGIN_C: usize = 776;

pub const BEGIN_D: usize = 1288;

fn wide(byte: u8) -> u32
    ensures { result ≡ byte }
{
    byte as u32
}

fn joined(low: u8, second: u8, third: u8, high: u8) -> u32
    ensures { result ≡ low + second * 2 ^ 8 + third * 2 ^ 16 + high * 2 ^ 24 }
{
    low as u32 + second as u32 * 256 + third as u32 * 65536 + high as u32 * 16777216
}

// Word n of some bytes, low byte first.
#[tactic(auto, unfolding(crate::specs::Records::word_at))]
pub fn word_at(bytes: &[u8], n: usize) -> u32
    requires { 4 * n + 4 ≤ length bytes.now }
    ensures { result ≡ word_at bytes.now n }
{
    let from = 4 * n;
    joined(
        bytes[from],
        bytes[from + 1],
        bytes[from + 2],
        bytes[from + 3],
    )
}

// As many words of some bytes as there is room for.
pub fn read_words(bytes: &[u8], words: &mut [u32])
    requires { 4 * length words.old ≤ length bytes.now }
    ensures { words.new ≡ words_in (length words.old) bytes.now }
{
    for i in 0..words.len() {
        words[i] = word_at(bytes, i);
    }
}

// The kind and the selectors of a record, with the mode that it asks for.
#[derive(Clone, Copy)]
pub struct Header {
    pub kind: Kind,
    pub signs: Signs,
    pub mode: Mode,
}

impl Header {
    // The mode byte that asks for the plain step, with signs 0.
    pub const PLAIN: u32 = 255;

    fn mode_for(signs: u32, mode: u32) -> u32
        ensures { result ≡ mode_for signs mode }
    {
        if signs == 0 && mode == Header::PLAIN {
            return 0;
        }
        mode
    }

    pub fn of(record: &[u8]) -> Header
        requires { length «record».now ≡ record_bytes }
        ensures { (result.kind.0 ≡ kind_in «record».now) × (result.signs.0 ≡ signs_in «record».now)
            × (result.mode.0 ≡ mode_asked «record».now) }
    {
        let kind = wide(record[0]);
        let signs = wide(record[1]);
        let mode = wide(record[2]);
        Header {
            kind: Kind(kind),
            signs: Signs(signs),
            mode: Mode(Header::mode_for(signs, mode)),
        }
    }
}

fn any_not_zero(bytes: &[u8]) -> bool
    ensures { result ≡ list_any (λ b. not (b == 0)) bytes.now }
{
    bytes.iter().any(|byte| *byte != 0)
}

// Whether one of some bytes is not zero, as a test of the refusals.
#[tactic(auto, using(crate::proofs::Laws::not_zero_told))]
fn not_zero(bytes: &[u8]) -> bool
    ensures { Tells (not_zero bytes.now) result }
{
    any_not_zero(bytes)
}

// Whether the tail of a part is not zero, behind so many words.
fn stray_behind(part: &[u8], words: usize) -> bool
    requires { 4 * words ≤ length part.now }
    ensures { Tells (not_zero (drop (4 * words) part.now)) result }
{
    let used = 4 * words;
    not_zero(&part[used..])
}

// Whether a tail is not zero, in a record of an arithmetic kind.
fn stray_tail(record: &[u8], kind: Kind, line: Entry) -> bool
    requires { (length «record».now ≡ record_bytes) × (kind.0 ≡ kind_in «record».now) × Arithmetic kind.0 ×
        (line ≡ entry_of kind.0) }
    ensures { Tells (stray_tail «record».now) result }
{
    let n = Lengths::of(kind, line);
    if stray_behind(&record[BEGIN_A..BEGIN_B], n.a) {
        return true;
    }
    if stray_behind(&record[BEGIN_B..BEGIN_C], n.b) {
        return true;
    }
    if stray_behind(&record[BEGIN_C..BEGIN_D], n.c) {
        return true;
    }
    stray_behind(&record[BEGIN_D..BYTES], n.c)
}

// Whether a byte that nothing uses is not zero: refusal 11.
fn unused_not_zero(record: &[u8], kind: Kind) -> bool
    requires { (length «record».now ≡ record_bytes) × (kind.0 ≡ kind_in «record».now) }
    ensures { Tells (unused_not_zero «record».now) result }
{
    let k = kind.0;
    if not_zero(&record[3..BEGIN_A]) {
        return true;
    }
    if k < 1 {
        return false;
    }
    if Kind::COUNT < k {
        return false;
    }
    let line = Entry::of(kind);
    if !line.element.is_arithmetic() {
        return false;
    }
    stray_tail(record, kind, line)
}

// A record's kind and selectors, with the mode that it asks for, or refusal 11, 1, 3 or 4.
pub fn judge(record: &[u8]) -> Result<Selected, Refusal>
    requires { length «record».now ≡ record_bytes }
    ensures line { Replies (record_call «record».now) (told_line result) }
    ensures asked { IfOk result (λ s. (s.kind.0 ≡ kind_in «record».now) × (s.signs.0 ≡ signs_in «record».now)
        × (s.mode.0 ≡ mode_asked «record».now)) }
{
    let header = Header::of(record);
    if unused_not_zero(record, header.kind) {
        return Err(Refusal::UnusedNotZero);
    }
    step::select(header.kind, header.signs, header.mode)
}
