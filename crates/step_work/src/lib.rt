// A step's worker: the words of D, which are C plus A times B, for selectors and lengths that were judged.
#![tactic(auto)]

ghost use Rattle.std.specs.Prelude.{◌≡◌, ◌-◌, ◌^◌, ◌<◌, ◌≤◌, length};
ghost use Rattle.kinds.specs.Kinds.{entry_of, one_bit, integer, Arithmetic};
ghost use Rattle.answers.specs.Tests.{Says};
ghost use Rattle.step_work.specs.Step.{unsigned_a, unsigned_b, stepped, cuts};
ghost use Rattle.step_work.specs.Workers.{Ready, Sized};
ghost use Rattle.buffers.specs.Buffers.{words_needed};
ghost use Rattle.step_limit.specs.Marks.{kept_marks};
ghost use Rattle.step_products.specs.Sums.{offset_of};

use buffers::Lengths;
use kinds::{Entry, Kind, Layouts, Mode, Signs};
use step_ones::Counter;
use step_products::Offsets;

// A kind and selectors that were judged, with the kind's line of the table: what a step and a run's feed work by.
#[derive(Clone, Copy)]
pub struct Selected {
    pub kind: Kind,
    pub line: Entry,
    pub signs: Signs,
    pub mode: Mode,
    pub ghost ready: { Ready kind.0 signs.0 mode.0 },
    pub ghost line_is: { line ≡ entry_of kind.0 },
}

fn unsigned_a(signs: Signs) -> bool
    ensures { result ≡ unsigned_a signs.0 }
{
    let s = signs.0;
    if s == 1 {
        return true;
    }
    s == 3
}

fn unsigned_b(signs: Signs) -> bool
    ensures { result ≡ unsigned_b signs.0 }
{
    let s = signs.0;
    if s == 2 {
        return true;
    }
    s == 3
}

// How far a side's digits stand too high: by the weight of the sign bit, where they are signed.
fn offset(unsigned: bool, bits: usize) -> u64
    requires { (0 < bits) × (bits ≤ 8) }
    ensures { (result ≡ offset_of unsigned (2 ^ (bits - 1))) × (result ≤ 128) }
{
    if unsigned {
        return 0;
    }
    1 << (bits - 1)
}

// The integer kinds: A by rows and B by columns are unpacked once, into digits. Of four bits the products are formed by shifts.
fn multiply(
    kind: Kind,
    signs: Signs,
    mode: Mode,
    a: &[u32],
    b: &[u32],
    c: &[u32],
    d: &mut [u32],
    marks: &mut [u32],
)
    requires ready { Ready kind.0 signs.0 mode.0 × Says (integer kind.0) × (length marks.old ≡ 4) }
    requires sized { Sized kind.0 (length a.now) (length b.now) (length c.now) (length d.old) }
    ensures words { d.new ≡ stepped kind.0 signs.0 mode.0 a.now b.now
        c.now }
    ensures marks { marks.new ≡ kept_marks marks.old (cuts kind.0 signs.0 mode.0
        a.now b.now c.now) }
{
    let l = Layouts::of(kind);
    let f = l.a;
    let g = l.b;
    let ha = offset(unsigned_a(signs), f.bits);
    let hb = offset(unsigned_b(signs), f.bits);
    let h = Offsets {
        a: ha as u32,
        b: hb as u32,
    };
    let mut x: [u8; 1024] = [0; 1024];
    let mut y: [u8; 1024] = [0; 1024];
    if f.bits == 4 {
        step_nibbles::digits(a, &mut x, f, ha);
        step_nibbles::digits(b, &mut y, g, hb);
        step_nibbles::cells(l, mode, h, &x, &y, c, d, marks);
        return;
    }
    step_products::digits(a, &mut x, f, ha);
    step_products::digits(b, &mut y, g, hb);
    step_products::cells(l, mode, h, &x, &y, c, d, marks);
}

// The one-bit kinds, each by its spans and halves. With one word a lane the words lie in lines as they are.
fn count(kind: Kind, line: Entry, mode: Mode, a: &[u32], b: &[u32], c: &[u32], d: &mut [u32])
    requires arithmetic { Arithmetic kind.0 × Says (one_bit kind.0) × (line ≡ entry_of kind.0) }
    requires sized { Sized kind.0 (length a.now) (length b.now) (length c.now) (length d.old) }
    ensures { d.new ≡ stepped kind.0 0 mode.0 a.now b.now c.now }
{
    if line.m == 8 {
        Counter::<1, 1> { mode }.fill(a, b, c, d);
    } else if line.b == 1 {
        Counter::<1, 2> { mode }.fill_in_lines(a, b, c, d);
    } else {
        Counter::<2, 2> { mode }.fill_in_lines(a, b, c, d);
    }
}

impl Selected {
    // The words that A, B and C need.
    pub fn lengths(self) -> Lengths
        ensures { (result.a ≡ words_needed self.kind.0 0) × (result.b ≡ words_needed self.kind.0 1) ×
            (result.c ≡ words_needed self.kind.0 2) }
    {
        Lengths::of(self.kind, self.line)
    }

    // The words of D, and the marks with those that are set now, for lengths that were judged. The one-bit kinds can't clamp and set none.
    pub fn work(self, a: &[u32], b: &[u32], c: &[u32], d: &mut [u32], marks: &mut [u32])
        requires marks { length marks.old ≡ 4 }
        requires sized { Sized self.kind.0 (length a.now) (length b.now) (length c.now) (length d.old) }
        ensures words { d.new ≡ stepped self.kind.0 self.signs.0 self.mode.0 a.now b.now
            c.now }
        ensures marks { marks.new ≡ kept_marks marks.old (cuts self.kind.0 self.signs.0 self.mode.0
            a.now b.now c.now) }
    {
        if self.line.element.is_one_bit() {
            count(self.kind, self.line, self.mode, a, b, c, d);
            return;
        }
        multiply(self.kind, self.signs, self.mode, a, b, c, d, marks);
    }
}
