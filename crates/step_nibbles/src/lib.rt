// The four-bit kinds, with no multiplication: a product of two digits is a term for each bit of B's, shifted by the bit's weight. The bits of B's
// digits are laid out as four planes; under each of them A's digits are added, and the four sums are shifted and added. The exact sum is that of
// step_products, and so is what its digits are.
#![tactic(auto)]

ghost use Rattle.std.specs.Prelude.{◌≡◌, ◌⊎◌, ◌+◌, ◌*◌, ◌-◌, ◌/◌, ◌%◌, ◌^◌, ◌<◌, ◌≤◌, length, get_or};
ghost use Rattle.laws.specs.Fields.{joined};
ghost use Rattle.kinds.specs.Kinds.{lanes};
ghost use Rattle.kinds.specs.Rule.{minors};
ghost use Rattle.step_limit.specs.Workers.{with_marks};
ghost use Rattle.step_products.specs.Sums.{Dots, straight, Digits, Digitised, Summable, digits_word, digits_mark, digits_words, digits_marks};
ghost use Rattle.step_nibbles.specs.Planes.{Planes, Small, Nibbled};

use kinds::{Element, Lane, Layouts, Mode, Shape};
use step_limit::Cell;
use step_products::{Dot, Offsets, Split};

mod planes;
mod shifts;

// The word whose every field of four bits is the offset.
fn mask_of(offset: u64) -> u32
    requires { (offset ≡ 0) ⊎ (offset ≡ 8) }
    ensures { result ≡ joined 4 8 (λ j. offset) }
{
    if offset == 0 {
        return 0;
    }
    0x8888_8888
}

// The digits of a side by its major and minor numbers.
pub fn digits(words: &[u32], out: &mut [u8; 1024], side: Shape, offset: u64)
    requires { Digitised (straight side) words.now out.old × ((offset ≡ 0) ⊎ (offset ≡ 2 ^ (side.bits - 1))) × (side.bits ≡ 4) }
    ensures { Digits side offset words.now out.new }
{
    let mask = mask_of(offset);
    step_products::put_digits(words, out, 4, side.spans, side.halves, mask);
}

// The sums of sixteen digits from i on and sixteen from j on.
fn sixteen(x: &[u8; 1024], y: &[u8; 1024], p: &[u8; 2048], i: usize, j: usize) -> Dot
    requires { (i + 16 ≤ 1024) × (j + 16 ≤ 512) × Small 16 i x.now × Small 16 j y.now × Planes y.now p.now }
    ensures { Dots 16 (λ k. get_or x.now (i + k) 0) (λ k. get_or y.now (j + k) 0) result }
{
    let ones = planes::sum_under(x, p, i, j);
    let twos = planes::sum_under(x, p, i, 512 + j);
    let fours = planes::sum_under(x, p, i, 1024 + j);
    let eights = planes::sum_under(x, p, i, 1536 + j);
    Dot {
        products: shifts::weighed(ones, twos, fours, eights),
        a: planes::sum(x, i),
        b: planes::sum(y, j),
    }
}

// The same of n times sixteen.
fn dot_of(x: &[u8; 1024], y: &[u8; 1024], p: &[u8; 2048], i: usize, j: usize, n: usize) -> Dot
    requires { (n ≤ 4) × (i + n * 16 ≤ 1024) × (j + n * 16 ≤ 512) × Small (n * 16) i x.now × Small (n * 16) j y.now ×
        Planes y.now p.now }
    ensures { Dots (n * 16) (λ k. get_or x.now (i + k) 0) (λ k. get_or y.now (j + k) 0) result }
{
    let mut products: u32 = 0;
    let mut a: u32 = 0;
    let mut b: u32 = 0;
    for q in 0..n {
        let s = sixteen(x, y, p, i + q * 16, j + q * 16);
        products += s.products;
        a += s.a;
        b += s.b;
    }
    Dot { products, a, b }
}

// Of a row of A and a column of B.
fn dot_at(
    spans: usize,
    x: &[u8; 1024],
    y: &[u8; 1024],
    p: &[u8; 2048],
    row: usize,
    column: usize,
) -> Dot
    requires { (0 < spans) × (spans ≤ 2) × (row < 16) × (column < 8) × Small (spans * 32) (row * (spans * 32)) x.now ×
        Small (spans * 32) (column * (spans * 32)) y.now × Planes y.now p.now }
    ensures { Dots (spans * 32) (λ k. get_or x.now (row * (spans * 32) + k) 0)
        (λ k. get_or y.now (column * (spans * 32) + k) 0) result }
{
    if spans == 1 {
        return dot_of(x, y, p, row * 32, column * 32, 2);
    }
    dot_of(x, y, p, row * 64, column * 64, 4)
}

// The exact sum of n products, from the sums of their digits.
fn exact(s: Dot, n: usize, h: Offsets) -> Split
    requires { (n ≤ 64) × (h.a < 16) × (h.b < 16) × (s.products ≤ 65025 * 64) × (s.a ≤ 255 * 64) ×
        (s.b ≤ 255 * 64) }
    ensures is { (result.plus ≡ s.products + n * (h.a * h.b)) × (result.minus ≡ h.a * s.b + h.b * s.a) }
    ensures small { (result.plus ≤ 8388608) × (result.minus ≤ 8388608) }
{
    let corner = shifts::times(shifts::times(n as u32, h.a), h.b);
    let of_a = shifts::times(s.a, h.b);
    let of_b = shifts::times(s.b, h.a);
    Split {
        plus: s.products + corner,
        minus: of_b + of_a,
    }
}

// The lane and the element of word k of D, of which a lane has a pair for each half.
fn lane_of(halves: usize, k: usize) -> Lane
    requires { (0 < halves) × (halves ≤ 2) × (k < lanes * (2 * halves)) }
    ensures { (result.0 ≡ k / (2 * halves)) × (result.0 < lanes) }
{
    Lane(kinds::rule::quotient(halves, k / 2) as u32)
}

fn element_of(halves: usize, k: usize) -> Element
    requires { (0 < halves) × (halves ≤ 2) × (k < lanes * (2 * halves)) }
    ensures { (result.0 ≡ k % (2 * halves)) × (result.0 < 2 * halves) }
{
    Element((kinds::rule::remainder(halves, k / 2) * 2 + k % 2) as u32)
}

// Word k of D, and its mark.
fn cell(
    l: Layouts,
    mode: Mode,
    h: Offsets,
    x: &[u8; 1024],
    y: &[u8; 1024],
    p: &[u8; 2048],
    c: &[u32],
    k: usize,
) -> Cell
    requires { Summable l mode.0 h c.now c.now × Nibbled l h x.now y.now × Planes y.now p.now × (k < length c.now) }
    ensures word { result.word ≡ digits_word mode.0 (minors l.a) h.a h.b l.c.words l.c.halves
        x.now y.now c.now (k / l.c.words) (k % l.c.words) }
    ensures mark { result.mark ≡ digits_mark mode.0 (minors l.a) h.a h.b l.c.words l.c.halves
        x.now y.now c.now (k / l.c.words) (k % l.c.words) }
{
    let spans = l.a.spans;
    let halves = l.c.halves;
    let lane = lane_of(halves, k);
    let element = element_of(halves, k);
    let row = kinds::rule::across(2, halves, lane, element);
    let column = kinds::rule::along(2, halves, lane, element);
    let s = exact(
        dot_at(spans, x, y, p, row, column),
        kinds::rule::multiple(spans, 32),
        h,
    );
    step_limit::limited(mode, c[k], s.plus, s.minus)
}

// Every word of D, and their marks.
pub fn cells(
    l: Layouts,
    mode: Mode,
    h: Offsets,
    x: &[u8; 1024],
    y: &[u8; 1024],
    c: &[u32],
    d: &mut [u32],
    marks: &mut [u32],
)
    requires { Summable l mode.0 h c.now d.old × Nibbled l h x.now y.now × (length marks.old ≡ 4) }
    ensures words { d.new ≡ digits_words l mode.0 h x.now y.now c.now }
    ensures marks { marks.new ≡ with_marks 0 (lanes * l.c.words)
        (digits_marks l mode.0 h x.now y.now c.now) marks.old }
{
    let mut p: [u8; 2048] = [0; 2048];
    planes::put(y, &mut p);
    for k in 0..d.len() {
        let one = cell(l, mode, h, x, y, &p, c, k);
        d[k] = one.word;
        step_limit::keep(marks, k, one.mark);
    }
}
