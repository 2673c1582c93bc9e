// Packing's workers: lane words are filled from a matrix, stretch by stretch, quad by quad and lane by lane.
#![tactic(auto)]

ghost use Rattle.std.specs.Prelude.{◌≡◌, ℕ, ◌+◌, ◌*◌, ◌^◌, ◌<◌, ◌≤◌, length, get_or};
ghost use Rattle.laws.specs.Fields.{field, joined};
ghost use Rattle.laws.specs.Toward.{stores};
ghost use Rattle.kinds.specs.Kinds.{lanes};
ghost use Rattle.kinds.specs.Rule.{rows_of, columns_of};
ghost use Rattle.buffers.specs.Buffers.{packed, Fitting};
ghost use Rattle.buffers.specs.Stretches.{holding, holding_of, WordsOfLane};

use buffers::Stretch;
use buffers::walk::{self, Filling};
use kinds::{Element, Lane, Layout, Spot};

// The number whose fields are so many entries from base on, step apart.
fn gather(matrix: &[u64], bits: usize, base: usize, step: usize, count: usize) -> u64
    requires count_bound { (bits * count ≤ 32) × (base < 524288) × (step ≤ 256) × (count ≤ 32) × Fitting bits matrix.now }
    requires by_index { (j : ℕ) → j < count → base + j * step < length matrix.now }
    ensures is { result ≡ joined bits count (λ j. get_or matrix.now (base + j * step) 0) }
    ensures small { result < 2 ^ 32 }
{
    let mut sum: u64 = 0;
    for j in 0..count {
        let bit = Spot::of(bits, Element(j as u32)).bit;
        sum = (matrix[base + j * step] << bit.0) + sum;
    }
    sum
}

// A number into word k, or for 64 bits into it and the next, the low half first.
fn put(words: &mut [u32], value: u64, bits: usize, k: usize)
    requires { (k < 256) × (k + holding bits ≤ length words.old) }
    ensures { words.new ≡ stores k 1 (holding bits) (λ j. field 32 j value) words.old }
{
    words[k] = (value % 4294967296) as u32;
    if bits == 64 {
        words[k + 1] = (value / 4294967296) as u32;
    }
}

// A matrix that a layout packs.
#[derive(Clone, Copy)]
struct Packing<'a> {
    matrix: &'a [u64],
    layout: &'a Layout,
    ghost whole: { length matrix.now ≡ rows_of layout.now * columns_of layout.now },
    ghost fitting: { Fitting layout.now.bits matrix.now },
}

impl Filling for Packing<'_> {
    ghost use Rattle.buffers.proofs.Round.{packed_length};
    ghost use Rattle.buffers.proofs.Stretches.{word_covered};

    type Item = u32;

    ghost layout = { λ s. s.layout.now };

    ghost target = { λ s. packed s.layout.now s.matrix.now };

    ghost held = { λ xs. xs };

    ghost Part = { λ s. WordsOfLane s.layout.now (holding_of s.layout.now) };

    ghost covers = { λ s laid x h. word_covered s.layout.now laid x (rw (packed_length s.layout.now s.matrix.now) at h) };

    fn layout(&self) -> &Layout {
        self.layout
    }

    // The entries of the stretch, or its one entry, as the number whose fields are its words, into the lane's own part of the buffer.
    fn fill_lane(&self, words: &mut [u32], stretch: Stretch, lane: Lane) {
        let f = self.layout;
        let base = stretch.base(f, lane);
        let k = stretch.word(f);
        let at = lane.0 as usize * f.words;
        let end = at + f.words;
        if f.bits < 32 {
            let number = gather(self.matrix, f.bits, base, Stretch::step(f), f.side);
            return put(&mut words[at..end], number, f.bits, k);
        }
        put(&mut words[at..end], self.matrix[base], f.bits, k);
    }
}

// Lane words filled from a matrix. The layout is copied: behind a reference the compiler would read its numbers again after each store.
pub fn fill_words(matrix: &[u64], words: &mut [u32], f: &Layout)
    requires { Fitting f.now.bits matrix.now × (length matrix.now ≡ rows_of f.now * columns_of f.now) ×
        (length words.old ≡ lanes * f.now.words) }
    ensures { words.new ≡ packed f.now matrix.now }
{
    let layout = *f;
    walk::fill(
        &Packing {
            matrix,
            layout: &layout,
        },
        words,
    );
}
