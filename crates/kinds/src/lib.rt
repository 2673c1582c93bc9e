// The kinds of documents 01 and 02: their table, and how a kind and a role lie in a warp.
#![tactic(auto)]

ghost use Rattle.std.specs.Prelude.{◌≡◌, ◌<◌, ◌≤◌};
ghost use Rattle.answers.specs.Refusals.{told};
ghost use Rattle.answers.specs.Promised.{Replies, Tells};
ghost use Rattle.kinds.specs.Kinds.{kinds, one_bit_format, arithmetic_format, sum_bits, entry_of, role_of};
ghost use Rattle.kinds.specs.Places.{word_within, lowest_bit};
ghost use Rattle.kinds.specs.Rule.{spread, side_of, layout_of, rows_of, columns_of};
ghost use Rattle.kinds.specs.Laid.{Laid};
ghost use Rattle.kinds.specs.Workers.{sided, LineAt, layout_call, layouts_of};

use answers::Refusal;
use std::marker::Model;

pub mod rule;

// Every number that could be taken for another has its own type. Any u32 may stand in it: what is out of range is refused.
#[derive(Clone, Copy, Debug, PartialEq, Eq)]
pub struct Kind(pub u32);

#[derive(Clone, Copy, Debug, PartialEq, Eq)]
pub struct Role(pub u32);

#[derive(Clone, Copy, Debug, PartialEq, Eq)]
pub struct Lane(pub u32);

#[derive(Clone, Copy, Debug, PartialEq, Eq)]
pub struct Element(pub u32);

#[derive(Clone, Copy, Debug, PartialEq, Eq)]
pub struct Row(pub u32);

#[derive(Clone, Copy, Debug, PartialEq, Eq)]
pub struct Column(pub u32);

#[derive(Clone, Copy, Debug, PartialEq, Eq)]
pub struct Word(pub u32);

#[derive(Clone, Copy, Debug, PartialEq, Eq)]
pub struct Bit(pub u32);

#[derive(Clone, Copy, Debug, PartialEq, Eq)]
pub struct Signs(pub u32);

#[derive(Clone, Copy, Debug, PartialEq, Eq)]
pub struct Mode(pub u32);

impl Kind {
    // The kinds are 1 to COUNT.
    pub const COUNT: u32 = 14;
}

impl Role {
    pub const A: u32 = 0;

    pub const B: u32 = 1;

    // C or D.
    pub const C: u32 = 2;
}

impl Lane {
    // Lanes of a warp.
    pub const COUNT: usize = 32;

    // Lanes of a quad.
    pub const QUAD: usize = 4;
}

// Where an element stands in its lane: its number, its word and its lowest bit in that word.
#[derive(Clone, Copy)]
pub struct Spot {
    pub element: Element,
    pub word: Word,
    pub bit: Bit,
}

impl Spot {
    // An element that takes two words stands in the low one, from bit 0 up.
    #[tactic(auto, unfolding(crate::specs::Places::word_within, crate::specs::Places::lowest_bit))]
    pub fn of(bits: usize, element: Element) -> Spot
        requires { (bits ≤ 64) × (element.0 ≤ 128) }
        ensures is { (result.element ≡ element) × (result.word.0 ≡ word_within bits element.0) ×
            (result.bit.0 ≡ lowest_bit bits element.0) }
        ensures small { (result.word.0 ≤ 256) × (result.bit.0 < 32) }
    {
        let first = element.0 * bits as u32;
        Spot {
            element,
            word: Word(first / 32),
            bit: Bit(first % 32),
        }
    }
}

// What an element of A and B is: a bit, an integer, a float, in this order.
#[derive(Clone, Copy, Debug, PartialEq, Eq, PartialOrd, Ord)]
pub enum Format {
    OneBit,
    Int8,
    Int4,
    F16,
    // The same with f16 sums.
    F16Sums,
    Tf32,
    F64,
}

impl Format {
    pub fn is_one_bit(self) -> bool
        ensures { Tells (one_bit_format self) result }
    {
        self == Format::OneBit
    }

    // A bit or an integer.
    pub fn is_arithmetic(self) -> bool
        ensures { Tells (arithmetic_format self) result }
    {
        self <= Format::Int4
    }

    // The bits of a C or D element. Of a `match` the compiler makes a jump for each format, and places take longer.
    fn sum_bits(self) -> u16
        ensures { result ≡ sum_bits self }
    {
        if self == Format::F16Sums {
            return 16;
        }
        if self == Format::F64 {
            return 64;
        }
        32
    }
}

// A line of the kinds table: m, n, k of the shape; bits of an A or B element, and what it is; words per lane of A, of B, of C or D.
#[derive(Clone, Copy)]
pub struct Entry {
    pub m: u16,
    pub n: u16,
    pub k: u16,
    pub bits: u16,
    pub element: Format,
    pub a: u16,
    pub b: u16,
    pub c: u16,
}

// A line, and how many elements stand side by side in its A and B: as many as a word holds, or one where an element takes two words.
#[derive(Clone, Copy)]
struct Sided {
    line: Entry,
    side: u16,
}

fn line(
    shape: (u16, u16, u16),
    bits: u16,
    element: Format,
    words: (u16, u16, u16),
    side: u16,
) -> Sided
    ensures { result ≡ sided shape.0 shape.1 shape.2 element bits words.0 words.1 words.2 side }
{
    let (m, n, k) = shape;
    let (a, b, c) = words;
    let line = Entry {
        m,
        n,
        k,
        bits,
        element,
        a,
        b,
        c,
    };
    Sided { line, side }
}

// The table, a line a kind. The lines stand in branches of a `match`, which the compiler lays into constant memory: a constant array it would
// write out anew at each look. That the sides are constants shows it that they are powers of two, so that it divides by none. No kind has the
// last line.
fn line_at(number: usize) -> Sided
    ensures { LineAt number result }
{
    match number {
        0 => line((8, 8, 128), 1, Format::OneBit, (1, 1, 2), 32),
        1 => line((16, 8, 16), 8, Format::Int8, (2, 1, 4), 4),
        2 => line((16, 8, 32), 8, Format::Int8, (4, 2, 4), 4),
        3 => line((16, 8, 32), 4, Format::Int4, (2, 1, 4), 8),
        4 => line((16, 8, 64), 4, Format::Int4, (4, 2, 4), 8),
        5 => line((16, 8, 8), 16, Format::F16, (2, 1, 4), 2),
        6 => line((16, 8, 8), 16, Format::F16Sums, (2, 1, 2), 2),
        7 => line((16, 8, 8), 32, Format::Tf32, (4, 2, 4), 1),
        8 => line((16, 8, 8), 64, Format::F64, (8, 4, 8), 1),
        9 => line((8, 8, 4), 64, Format::F64, (2, 2, 4), 1),
        10 => line((8, 8, 16), 8, Format::Int8, (1, 1, 2), 4),
        11 => line((8, 8, 32), 4, Format::Int4, (1, 1, 2), 8),
        12 => line((16, 8, 128), 1, Format::OneBit, (2, 1, 4), 32),
        13 => line((16, 8, 256), 1, Format::OneBit, (4, 2, 4), 32),
        _ => line((0, 0, 0), 32, Format::Tf32, (0, 0, 0), 1),
    }
}

impl Entry {
    // The line of a kind.
    pub fn of(kind: Kind) -> Entry
        requires { (1 ≤ kind.0) × (kind.0 ≤ kinds) }
        ensures { result ≡ entry_of kind.0 }
    {
        line_at((kind.0 - 1) as usize).line
    }
}

// How one kind and role lies in a warp: bits of an element and words of a lane; elements side by side, halves of eight rows, spans of
// four times side columns; turned where the major number is the column, as in B.
#[derive(Clone, Copy)]
pub struct Shape {
    pub bits: usize,
    pub words: usize,
    pub side: usize,
    pub halves: usize,
    pub spans: usize,
    pub turned: bool,
}

// The same of a kind and a role of the table: its numbers are as theirs are, which is the type's own fact.
#[derive(Clone, Copy)]
pub struct Layout {
    pub bits: usize,
    pub words: usize,
    pub side: usize,
    pub halves: usize,
    pub spans: usize,
    pub turned: bool,
}

impl Model for Layout {
    ghost use Rattle.kinds.specs.Rule.{Layout, shape};
    ghost use Rattle.kinds.specs.Laid.{Sane};

    ghost Value = { Layout };

    ghost view = { λ a. shape a.bits a.words a.side a.halves a.spans a.turned };

    ghost invariant = { λ a. Sane a.bits a.words a.side a.halves a.spans };

    ghost inverse = { λ a. record { bits = a.bits; words = a.words; side = a.side; halves = a.halves; spans = a.spans; turned = a.turned } };
}

impl Layout {
    // The layout whose matrix has so many major and minor numbers.
    fn new(bits: u16, words: u16, side: u16, majors: u16, minors: u16, turned: bool) -> Layout
        requires { Laid (spread bits words side majors minors turned) }
        ensures { result ≡ spread bits words side majors minors turned }
    {
        Layout {
            bits: bits as usize,
            words: words as usize,
            side: side as usize,
            halves: (majors / 8) as usize,
            spans: (minors / 4 / side) as usize,
            turned,
        }
    }
}

// The elements that stand side by side in A and B of a kind.
fn side_of(kind: Kind) -> u16
    requires { (1 ≤ kind.0) × (kind.0 ≤ kinds) }
    ensures is { result ≡ side_of (entry_of kind.0).bits }
    ensures some { 0 < result }
{
    line_at((kind.0 - 1) as usize).side
}

fn layout_in(e: Entry, side: u16, role: Role) -> Layout
    requires { (side ≡ side_of e.bits) × (role.0 ≤ 2) × Laid (layout_of e (role_of role.0)) }
    ensures { result ≡ layout_of e (role_of role.0) }
{
    let r = role.0;
    if r == Role::C {
        return Layout::new(e.element.sum_bits(), e.c, 2, e.m, e.n, false);
    }
    if r == Role::B {
        return Layout::new(e.bits, e.b, side, e.n, e.k, true);
    }
    Layout::new(e.bits, e.a, side, e.m, e.k, false)
}

impl Layout {
    // The layout of a kind and a role that are legal.
    pub fn of(kind: Kind, role: Role) -> Layout
        requires { (1 ≤ kind.0) × (kind.0 ≤ kinds) × (role.0 ≤ 2) }
        ensures is { result ≡ layout_of (entry_of kind.0) (role_of role.0) }
    {
        let e = Entry::of(kind);
        let side = side_of(kind);
        layout_in(e, side, role)
    }
}

impl Layout {
    // Its numbers alone, for the steps, whose own facts say more of them.
    pub fn shape(&self) -> Shape
        ensures { result ≡ self.now }
    {
        Shape {
            bits: self.bits,
            words: self.words,
            side: self.side,
            halves: self.halves,
            spans: self.spans,
            turned: self.turned,
        }
    }

    // The rows and the columns of the matrix.
    pub fn rows(&self) -> usize
        ensures is { result ≡ rows_of self.now }
        ensures small { result ≤ 256 }
    {
        if self.turned {
            return self.spans * Lane::QUAD * self.side;
        }
        self.halves * 8
    }

    pub fn columns(&self) -> usize
        ensures is { result ≡ columns_of self.now }
        ensures small { result ≤ 256 }
    {
        if self.turned {
            return self.halves * 8;
        }
        self.spans * Lane::QUAD * self.side
    }
}

// The layouts of a kind's A, B and C.
#[derive(Clone, Copy)]
pub struct Layouts {
    pub a: Shape,
    pub b: Shape,
    pub c: Shape,
}

impl Layouts {
    pub fn of(kind: Kind) -> Layouts
        requires { (1 ≤ kind.0) × (kind.0 ≤ kinds) }
        ensures { result ≡ layouts_of kind.0 }
    {
        let e = Entry::of(kind);
        let side = side_of(kind);
        let a = layout_in(e, side, Role(Role::A));
        let b = layout_in(e, side, Role(Role::B));
        let c = layout_in(e, side, Role(Role::C));
        Layouts {
            a: a.shape(),
            b: b.shape(),
            c: c.shape(),
        }
    }
}

// The layout of a kind and a role, or refusal 1 or 2.
pub fn layout_of(kind: Kind, role: Role) -> Result<Layout, Refusal>
    ensures { Replies (layout_call kind.0 role.0) (told result) }
{
    let k = kind.0;
    let r = role.0;
    if k < 1 {
        return Err(Refusal::UnknownKind);
    }
    if Kind::COUNT < k {
        return Err(Refusal::UnknownKind);
    }
    if Role::C < r {
        return Err(Refusal::UnknownRole);
    }
    Ok(Layout::of(kind, role))
}
