// The one-bit kinds: the ones of xor or and words are counted by the language's own operation, two words at a time, a row of A beside the eight
// columns of B.
#![tactic(auto)]

ghost use Rattle.std.specs.Prelude.{◌≡◌, ℕ, ◌+◌, ◌*◌, ◌/◌, ◌%◌, ◌^◌, ◌<◌, ◌≤◌, length, slice_index};
ghost use Rattle.laws.specs.Bits.{combine, sum_n};
ghost use Rattle.laws.specs.Lists.{tab};
ghost use Rattle.kinds.specs.Kinds.{lanes};
ghost use Rattle.step_ones.specs.Combined.{word_at, lines_of, ones_words, Paired, ones_of, Summed, place_at, sums_words};

use kinds::{Lane, Mode};

// How a kind's ones are counted: a row of A and a column of B have SPANS times four words, A has HALVES of eight rows, and the mode combines their
// bits. The numbers stand in the type, so that the compiler makes loops of its own for each kind.
#[derive(Clone, Copy)]
pub struct Counter<const SPANS: usize, const HALVES: usize> {
    pub mode: Mode,
    pub ghost spans_in_range: { (0 < SPANS) × (SPANS ≤ 2) },
    pub ghost halves_in_range: { (0 < HALVES) × (HALVES ≤ 2) },
}

// Two words as one number.
fn join(low: u32, high: u32) -> u64
    ensures { result ≡ high * 4294967296 + low }
{
    u64::from(high) * 0x1_0000_0000 + u64::from(low)
}

// The ones of two pairs of words combined.
fn pair_ones(mode: Mode, x: u64, y: u64) -> u32
    ensures { (result ≡ sum_n 64 (λ i. combine mode.0 (x / 2 ^ i % 2) (y / 2 ^ i % 2))) × (result ≤ 64) }
{
    let is_xor = mode.0 == 0;
    let combined = if is_xor { x ^ y } else { x & y };
    combined.count_ones()
}

impl<const SPANS: usize, const HALVES: usize> Counter<SPANS, HALVES> {
    // The ones of a row with a column.
    fn ones_of(self, rows: &[u32], pairs: &[u64; 32], row: usize, column: usize) -> u32
        requires { (row * (SPANS * 4) + SPANS * 4 ≤ length rows.now) × (column < 8) }
        ensures { result ≡ ones_of SPANS self.entry.mode.0 rows.now pairs.now row column }
    {
        let mut ones = 0;
        for q in 0..2 * SPANS {
            let at = row * (SPANS * 4) + 2 * q;
            ones += pair_ones(
                self.mode,
                join(rows[at], rows[at + 1]),
                pairs[q * 8 + column],
            );
        }
        ones
    }

    // The ones of a row with each column, and of every row with each.
    fn row_sums(self, rows: &[u32], pairs: &[u64; 32], row: usize, sums: &mut [u32])
        requires { (row * (SPANS * 4) + SPANS * 4 ≤ length rows.now) × (length sums.old ≡ 8) }
        ensures { sums.new ≡ tab 8 (ones_of SPANS self.entry.mode.0 rows.now pairs.now row) }
    {
        for (column, ones) in sums.iter_mut().enumerate() {
            *ones = self.ones_of(rows, pairs, row, column);
        }
    }

    // The rows are taken by their numbers: what a loop over `chunks_exact_mut` stored, no proof learns.
    fn sums(self, rows: &[u32], pairs: &[u64; 32]) -> [u32; 128]
        requires { length rows.now ≡ HALVES * 8 * (SPANS * 4) }
        ensures { Summed SPANS HALVES self.entry.mode.0 rows.now pairs.now result }
    {
        let mut sums = [0; 128];
        for row in 0..HALVES * 8 {
            self.row_sums(rows, pairs, row, &mut sums[row * 8..row * 8 + 8]);
        }
        sums
    }

    // Word q of row x of A, or of column x of B: a lane's words lie by the one rule as its elements do, one side by side.
    fn word_of(self, words: &[u32], x: usize, q: usize) -> u32
        requires { (length words.now ≡ lanes * (SPANS * HALVES)) × (x < HALVES * 8) × (q < SPANS * 4) }
        ensures { result ≡ slice_index words.now (word_at SPANS HALVES x q) }
    {
        let lane = kinds::rule::lane_at(1, x, q);
        let word = kinds::rule::element_at(1, HALVES, x, q);
        words[lane * (SPANS * HALVES) + word]
    }

    // The pairs of B, whose columns lie as the rows of one half do: those that stand first in their columns first.
    fn pairs(self, words: &[u32]) -> [u64; 32]
        requires { length words.now ≡ lanes * SPANS }
        ensures { Paired SPANS words.now result }
    {
        let columns = Counter::<SPANS, 1> { mode: self.mode };
        let mut pairs = [0; 32];
        for (k, pair) in pairs[..SPANS * 16].iter_mut().enumerate() {
            let q = k / 8 * 2;
            *pair = join(
                columns.word_of(words, k % 8, q),
                columns.word_of(words, k % 8, q + 1),
            );
        }
        pairs
    }

    // Where the ones of word k of D stand, eight columns a row: a lane has a pair of words for each half.
    fn place_of(self, k: usize) -> usize
        requires { k < lanes * (2 * HALVES) }
        ensures is { result ≡ place_at HALVES (k / (2 * HALVES)) (k % (2 * HALVES)) }
        ensures small { result < HALVES * 64 }
    {
        if HALVES == 1 {
            return k;
        }
        (k % 4 / 2 * 8 + k / 16) * 8 + (k / 4 % 4 * 2 + k % 2)
    }

    // Every word of D, from the ones by row and column. C is read by number, since no proof learns what a loop over `iter_mut` and `zip` stored.
    fn put_cells(self, sums: &[u32; 128], c: &[u32], d: &mut [u32])
        requires few { (k : ℕ) → k < HALVES * 64 → slice_index sums.now k ≤ 256 }
        requires c_and_d { (length c.now ≡ lanes * (2 * HALVES)) × (length d.old ≡ lanes * (2 * HALVES)) }
        ensures { d.new ≡ sums_words HALVES sums.now c.now }
    {
        for (k, word) in d.iter_mut().enumerate() {
            let ones = sums[self.place_of(k)];
            *word = step_limit::limited(Mode(0), c[k], ones, 0).word;
        }
    }

    // Every word of D, from A's words row by row.
    pub fn fill(self, rows: &[u32], b: &[u32], c: &[u32], d: &mut [u32])
        requires rows_and_b { (length rows.now ≡ HALVES * 8 * (SPANS * 4)) × (length b.now ≡ lanes * SPANS) }
        requires c_and_d { (length c.now ≡ lanes * (2 * HALVES)) × (length d.old ≡ lanes * (2 * HALVES)) }
        ensures { d.new ≡ ones_words SPANS HALVES self.entry.mode.0 rows.now b.now c.now }
    {
        let pairs = self.pairs(b);
        let sums = self.sums(rows, &pairs);
        self.put_cells(&sums, c, d);
    }

    // The words of A row by row.
    fn lines(self, words: &[u32], rows: &mut [u32])
        requires { (length words.now ≡ lanes * (SPANS * HALVES)) × (length rows.old ≡ HALVES * 8 * (SPANS * 4)) }
        ensures { rows.new ≡ lines_of SPANS HALVES words.now }
    {
        let n = SPANS * Lane::QUAD;
        for (k, word) in rows.iter_mut().enumerate() {
            *word = self.word_of(words, k / n, k % n);
        }
    }

    // Every word of D, where a lane has several words of A: they are put in lines first.
    pub fn fill_in_lines(self, a: &[u32], b: &[u32], c: &[u32], d: &mut [u32])
        requires a_and_b { (length a.now ≡ lanes * (SPANS * HALVES)) × (length b.now ≡ lanes * SPANS) }
        requires c_and_d { (length c.now ≡ lanes * (2 * HALVES)) × (length d.old ≡ lanes * (2 * HALVES)) }
        ensures { d.new ≡ ones_words SPANS HALVES self.entry.mode.0 (lines_of SPANS HALVES a.now)
            b.now c.now }
    {
        let mut buffer = [0; 128];
        let rows = &mut buffer[..HALVES * 8 * (SPANS * Lane::QUAD)];
        self.lines(a, rows);
        self.fill(rows, b, c, d);
    }
}
