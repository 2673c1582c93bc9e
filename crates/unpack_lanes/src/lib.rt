// Unpacking's workers: a matrix is filled from lane words, stretch by stretch, quad by quad and lane by lane.
#![tactic(auto)]

ghost use Rattle.std.specs.Prelude.{◌≡◌, ℕ, ◌+◌, ◌*◌, ◌^◌, ◌<◌, ◌≤◌, length, get_or};
ghost use Rattle.laws.specs.Fields.{field};
ghost use Rattle.kinds.specs.Kinds.{lanes};
ghost use Rattle.laws.specs.Toward.{stores};
ghost use Rattle.kinds.specs.Rule.{rows_of, columns_of};
ghost use Rattle.buffers.specs.Buffers.{words_from, unpacked, Fitting};
ghost use Rattle.buffers.specs.Stretches.{size_of, OfLane};

use buffers::Stretch;
use buffers::walk::{self, Filling};
use kinds::{Lane, Layout};

// Word k, as a wider number.
fn word(words: &[u32], k: usize) -> u64
    requires { k < length words.now }
    ensures { (result ≡ get_or words.now k 0) × (result < 2 ^ 32) }
{
    words[k] as u64
}

// The fields of a word, stored from base on, step apart.
fn scatter(matrix: &mut [u64], word: u64, bits: usize, side: usize, base: usize, step: usize)
    requires side_bound { (bits * side ≤ 32) × (side ≤ 32) × (bits < 32) × (base < 524288) × (step ≤ 256) }
    requires by_index { (j : ℕ) → j < side → base + j * step < length matrix.old }
    ensures { matrix.new ≡ stores base step side (λ j. field bits j word) matrix.old }
{
    for j in 0..side {
        matrix[base + j * step] = buffers::field_of(word, bits, j);
    }
}

// What stands in word k, or for 64 bits in it and the next, the low half first.
fn element(words: &[u32], bits: usize, k: usize) -> u64
    requires { (k < 256) × (k < length words.now) × (bits ≡ 64 → k + 1 < length words.now) }
    ensures { result ≡ words_from bits words.now k }
{
    let low = word(words, k);
    if bits == 64 {
        let high = word(words, k + 1);
        return high * 4294967296 + low;
    }
    low
}

// Lane words that a layout unpacks.
#[derive(Clone, Copy)]
struct Unpacking<'a> {
    words: &'a [u32],
    layout: &'a Layout,
    ghost whole: { length words.now ≡ lanes * layout.now.words },
    ghost fitting: { Fitting 32 words.now },
}

impl Filling for Unpacking<'_> {
    ghost use Rattle.buffers.proofs.Round.{unpacked_length};
    ghost use Rattle.buffers.proofs.Stretches.{place_covered};

    type Item = u64;

    ghost layout = { λ s. s.layout.now };

    ghost target = { λ s. unpacked s.layout.now s.words.now };

    ghost held = { λ xs. xs };

    ghost Part = { λ s. OfLane s.layout.now (size_of s.layout.now) };

    ghost covers = { λ s laid x h. place_covered s.layout.now laid x (rw (unpacked_length s.layout.now s.words.now) at h) };

    fn layout(&self) -> &Layout {
        self.layout
    }

    // The fields of a word, or one element.
    fn fill_lane(&self, matrix: &mut [u64], stretch: Stretch, lane: Lane) {
        let f = self.layout;
        let base = stretch.base(f, lane);
        let k = lane.0 as usize * f.words + stretch.word(f);
        if f.bits < 32 {
            let step = Stretch::step(f);
            return scatter(matrix, word(self.words, k), f.bits, f.side, base, step);
        }
        matrix[base] = element(self.words, f.bits, k);
    }
}

// A matrix filled from lane words. The layout is copied: behind a reference the compiler would read its numbers again after each store.
pub fn fill(words: &[u32], matrix: &mut [u64], f: &Layout)
    requires { (length words.now ≡ lanes * f.now.words) × (length matrix.old ≡ rows_of f.now * columns_of f.now) }
    ensures { matrix.new ≡ unpacked f.now words.now }
{
    let layout = *f;
    walk::fill(
        &Unpacking {
            words,
            layout: &layout,
        },
        matrix,
    );
}
