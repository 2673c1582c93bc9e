// The eight-bit kinds, one multiply a product, and what the four-bit kinds have of them: a side's digits, and their sums in two naturals. With digits that
// stand too high by ha and hb, the sum of the products is (the sum of the digits' products + n ha hb) - (ha times the sum of B's digits + hb times the sum of A's).
#![tactic(auto)]

ghost use Rattle.std.specs.Prelude.{◌≡◌, false, ◌⊎◌, ◌+◌, ◌*◌, ◌-◌, ◌/◌, ◌%◌, ◌^◌, ◌<◌, ◌≤◌, length, get_or};
ghost use Rattle.laws.specs.Fields.{field, joined};
ghost use Rattle.laws.specs.Toward.{stores, Brings, Below, At};
ghost use Rattle.kinds.specs.Kinds.{lanes};
ghost use Rattle.kinds.specs.Rule.{shape, lane_of, element_of};
ghost use Rattle.step_limit.specs.Workers.{with_marks};
ghost use Rattle.step_products.specs.Sums.{Dots, straight, masked, Digits, Digitised, Summable, digits_words, digits_marks};

use kinds::{Element, Lane, Layouts, Mode, Shape};

// How far the digits of A and of B stand too high.
#[derive(Clone, Copy)]
pub struct Offsets {
    pub a: u32,
    pub b: u32,
}

// A number as the difference of two.
#[derive(Clone, Copy)]
pub struct Split {
    pub plus: u32,
    pub minus: u32,
}

// Of two rows of digits: the sum of their products, and the sum of each.
#[derive(Clone, Copy)]
pub struct Dot {
    pub products: u32,
    pub a: u32,
    pub b: u32,
}

// One product of two digits.
fn product(x: u32, y: u32) -> u32
    requires { (x < 256) × (y < 256) }
    ensures is { result ≡ x * y }
    ensures small { result ≤ 65025 }
{
    x * y
}

fn wide(x: u8) -> u32
    ensures { (result ≡ x) × (result < 256) }
{
    x as u32
}

// The sums of n digits from i on and n from j on.
fn dot_of(x: &[u8; 1024], y: &[u8; 1024], i: usize, j: usize, n: usize) -> Dot
    requires { (n ≤ 64) × (i + n ≤ 1024) × (j + n ≤ 1024) }
    ensures { Dots n (λ k. get_or x.now (i + k) 0) (λ k. get_or y.now (j + k) 0) result }
{
    let mut products: u32 = 0;
    let mut a: u32 = 0;
    let mut b: u32 = 0;
    for k in 0..n {
        let u = wide(x[i + k]);
        let v = wide(y[j + k]);
        products += product(u, v);
        a += u;
        b += v;
    }
    Dot { products, a, b }
}

// The exact sum of n products, from the sums of their digits.
fn exact(s: Dot, n: usize, h: Offsets) -> Split
    requires { (n ≤ 64) × (h.a ≤ 128) × (h.b ≤ 128) × (s.products ≤ 65025 * 64) × (s.a ≤ 255 * 64) ×
        (s.b ≤ 255 * 64) }
    ensures is { (result.plus ≡ s.products + n * (h.a * h.b)) × (result.minus ≡ h.a * s.b + h.b * s.a) }
    ensures small { (result.plus ≤ 8388608) × (result.minus ≤ 8388608) }
{
    Split {
        plus: s.products + n as u32 * (h.a * h.b),
        minus: h.a * s.b + h.b * s.a,
    }
}

fn word(x: u32) -> u64
    ensures { result ≡ x }
{
    x as u64
}

// The word whose every field of eight bits is the offset.
fn mask_of(offset: u64) -> u32
    requires { (offset ≡ 0) ⊎ (offset ≡ 128) }
    ensures { result ≡ joined 8 4 (λ j. offset) }
{
    if offset == 0 {
        return 0;
    }
    0x8080_8080
}

// The fields of a word, from base on.
fn digits_of(out: &mut [u8; 1024], word: u64, bits: usize, side: usize, base: usize)
    requires { (bits * side ≤ 32) × (bits ≤ 8) × (side ≤ 32) × (base + side ≤ 1024) × (length out.old ≡ 1024) }
    ensures { out.new ≡ stores base 1 side (λ j. field bits j word) out.old }
{
    for j in 0..side {
        out[base + j] = buffers::field_of(word, bits, j) as u8;
    }
}

// Where word t of a side stands, counted by major numbers: the words lie by the one rule as the elements do, one side by side.
fn word_at(spans: usize, halves: usize, t: usize) -> usize
    requires { (0 < spans) × (spans ≤ 2) × (0 < halves) × (halves ≤ 2) × (t < lanes * (spans * halves)) }
    ensures { result ≡ lane_of 1 (t / (spans * 4)) (t % (spans * 4)) * (spans * halves) +
        element_of 1 halves (t / (spans * 4)) (t % (spans * 4)) }
{
    let group = t / Lane::QUAD;
    let major = kinds::rule::quotient(spans, group);
    let span = kinds::rule::remainder(spans, group);
    let lane = major % 8 * Lane::QUAD + t % Lane::QUAD;
    kinds::rule::multiple(halves, kinds::rule::multiple(spans, lane) + span) + major / 8
}

// The fields of every word, one word's after another's, with the bits turned over that the mask has. It is called with its bits written out: the compiler,
// which then lays it into its caller, multiplies by powers of two alone.
pub fn put_digits(
    words: &[u32],
    out: &mut [u8; 1024],
    bits: usize,
    spans: usize,
    halves: usize,
    mask: u32,
)
    requires { Digitised (shape bits (spans * halves) (32 / bits) halves spans false) words.now out.old }
    ensures { Brings (masked (shape bits (spans * halves) (32 / bits) halves spans false) mask words.now)
        (λ z. z < halves * 8 * (spans * 4 * (32 / bits))) out.old out.new }
{
    let side = 32 / bits;
    for t in 0..words.len() {
        let turned = word(words[word_at(spans, halves, t)] ^ mask);
        digits_of(out, turned, bits, side, t * side);
    }
}

// The digits of a side by its major and minor numbers, of A by rows and of B by columns: the matrix of the layout that is not turned. An
// offset is nothing or a sign bit's weight, and to add that is to turn the bit over.
pub fn digits(words: &[u32], out: &mut [u8; 1024], side: Shape, offset: u64)
    requires { Digitised (straight side) words.now out.old × ((offset ≡ 0) ⊎ (offset ≡ 2 ^ (side.bits - 1))) × (side.bits ≡ 8) }
    ensures { Digits side offset words.now out.new }
{
    let mask = mask_of(offset);
    put_digits(words, out, 8, side.spans, side.halves, mask);
}

// The words of D that a lane holds, and their marks.
fn lane_cells(
    l: Layouts,
    mode: Mode,
    h: Offsets,
    x: &[u8; 1024],
    y: &[u8; 1024],
    c: &[u32],
    d: &mut [u32],
    marks: &mut [u32],
    lane: Lane,
)
    requires { Summable l mode.0 h c.now d.old × (lane.0 < lanes) × (length marks.old ≡ 4) }
    ensures words { Brings (digits_words l mode.0 h x.now y.now c.now)
        (Below l.c.words (λ i. At (lane.0 * l.c.words + i))) d.old d.new }
    ensures marks { marks.new ≡ with_marks (lane.0 * l.c.words) l.c.words
        (digits_marks l mode.0 h x.now y.now c.now) marks.old }
{
    let f = l.a;
    let g = l.c;
    let n = f.spans * Lane::QUAD * f.side;
    for i in 0..g.words {
        let element = Element(i as u32);
        let row = kinds::rule::across(2, g.halves, lane, element);
        let column = kinds::rule::along(2, g.halves, lane, element);
        let s = exact(dot_of(x, y, row * n, column * n, n), n, h);
        let k = lane.0 as usize * g.words + i;
        let cell = step_limit::limited(mode, c[k], s.plus, s.minus);
        d[k] = cell.word;
        step_limit::keep(marks, k, cell.mark);
    }
}

// Every word of D, lane by lane, and their marks.
pub fn cells(
    l: Layouts,
    mode: Mode,
    h: Offsets,
    x: &[u8; 1024],
    y: &[u8; 1024],
    c: &[u32],
    d: &mut [u32],
    marks: &mut [u32],
)
    requires { Summable l mode.0 h c.now d.old × (length marks.old ≡ 4) }
    ensures words { d.new ≡ digits_words l mode.0 h x.now y.now c.now }
    ensures marks { marks.new ≡ with_marks 0 (lanes * l.c.words)
        (digits_marks l mode.0 h x.now y.now c.now) marks.old }
{
    for lane in 0..Lane::COUNT {
        lane_cells(l, mode, h, x, y, c, d, marks, Lane(lane as u32));
    }
}
