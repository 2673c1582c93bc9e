// What a warp buffer and a matrix buffer hold: the definitions and laws of unpacking and packing, and what the two calls share.
#![tactic(auto)]

ghost use Rattle.std.specs.Prelude.{◌≡◌, ◌+◌, ◌*◌, ◌<◌, ◌≤◌, length};
ghost use Rattle.laws.specs.Fields.{field};
ghost use Rattle.kinds.specs.Kinds.{lanes, entry_of};
ghost use Rattle.kinds.specs.Places.{word_within};
ghost use Rattle.kinds.specs.Rule.{columns_of};
ghost use Rattle.kinds.specs.Laid.{Laid};
ghost use Rattle.buffers.specs.Buffers.{words_needed};
ghost use Rattle.buffers.specs.Stretches.{size_of, abreast_in, stretches_of, holding_of, place_at, step_of};

pub mod walk;

use kinds::{Element, Entry, Kind, Lane, Layout, Spot};

// A quad of a warp, and a stretch of a lane: the elements that one word holds, or one element that takes a word or two.
#[derive(Clone, Copy)]
pub struct Quad(pub usize);

#[derive(Clone, Copy)]
pub struct Stretch(pub usize);

impl Quad {
    // Quads of a warp.
    pub const COUNT: usize = 8;

    // Lane t of the quad.
    pub fn lane(self, t: usize) -> Lane
        requires { (self.0 < 8) × (t < 4) }
        ensures { result.0 ≡ self.0 * 4 + t }
    {
        Lane((self.0 * Lane::QUAD + t) as u32)
    }
}

// The words that A, B and C of a kind need, by its line.
#[derive(Clone, Copy)]
pub struct Lengths {
    pub a: usize,
    pub b: usize,
    pub c: usize,
}

impl Lengths {
    pub fn of(kind: Kind, line: Entry) -> Lengths
        requires { line ≡ entry_of kind.0 }
        ensures { (result.a ≡ words_needed kind.0 0) × (result.b ≡ words_needed kind.0 1) ×
            (result.c ≡ words_needed kind.0 2) }
    {
        Lengths {
            a: Lane::COUNT * line.a as usize,
            b: Lane::COUNT * line.b as usize,
            c: Lane::COUNT * line.c as usize,
        }
    }
}

// Field j of a word, from its lowest bit up.
pub fn field_of(word: u64, bits: usize, j: usize) -> u64
    requires { (bits < 32) × (bits + bits * j ≤ 32) × (j < 32) }
    ensures { result ≡ field bits j word }
{
    let bit = Spot::of(bits, Element(j as u32)).bit;
    (word >> bit.0) % (1 << bits)
}

impl Stretch {
    // The step from an element of a stretch to the next.
    pub fn step(f: &Layout) -> usize
        ensures is { result ≡ step_of f.now.turned (columns_of f.now) }
        ensures small { result ≤ 256 }
    {
        if f.turned {
            return f.columns();
        }
        1
    }

    // The stretches that stand side by side.
    fn abreast(f: &Layout) -> usize
        ensures is { result ≡ abreast_in f.now }
        ensures few { (0 < result) × (result ≤ 2) }
    {
        if f.bits < 32 {
            return 1;
        }
        f.side
    }

    // The stretches of a lane.
    pub fn count(f: &Layout) -> usize
        ensures is { result ≡ stretches_of f.now }
        ensures laid { Laid f.now }
    {
        f.spans * f.halves * Stretch::abreast(f)
    }

    // The elements of a stretch.
    fn size(f: &Layout) -> usize
        ensures is { result ≡ size_of f.now }
        ensures few { result ≤ 32 }
    {
        if f.bits < 32 {
            return f.side;
        }
        1
    }

    // The word of its lane in which the stretch starts.
    pub fn word(self, f: &Layout) -> usize
        requires { self.0 < stretches_of f.now }
        ensures is { result ≡ word_within f.now.bits (self.0 * size_of f.now) }
        ensures within { result + holding_of f.now ≤ f.now.words }
    {
        let bits = f.bits;
        let first = self.0 * Stretch::size(f);
        Spot::of(bits, Element(first as u32)).word.0 as usize
    }

    // The index of its first place.
    pub fn base(self, f: &Layout, lane: Lane) -> usize
        requires { (self.0 < stretches_of f.now) × (lane.0 < lanes) }
        ensures is { result ≡ place_at f.now lane.0 (self.0 * size_of f.now) }
        ensures small { result < 262144 }
    {
        let columns = f.columns();
        let l = lane.0 as usize;
        let by = Stretch::abreast(f);
        let group = kinds::rule::quotient(by, self.0);
        let x = kinds::rule::remainder(f.halves, group) * 8 + l / Lane::QUAD;
        let y = (kinds::rule::quotient(f.halves, group) * Lane::QUAD + l % Lane::QUAD) * f.side
            + kinds::rule::remainder(by, self.0);
        if f.turned {
            return y * columns + x;
        }
        x * columns + y
    }
}
