// D at one place: C's word and the exact sum there, wrapped or clamped once, and a mark where the clamp cut something off.
#![tactic(auto)]

ghost use Rattle.std.specs.Prelude.{◌≡◌, ◌<◌, ◌≤◌, length};
ghost use Rattle.std.proofs.Math.IntN.{sub_ℕ};
ghost use Rattle.step_limit.specs.Limits.{cell_of, mark_of};
ghost use Rattle.step_limit.specs.Workers.{with_mark};

use kinds::Mode;

// A word of D, and 1 where the exact result lay outside 32 bits.
#[derive(Clone, Copy)]
pub struct Cell {
    pub word: u32,
    pub mark: u32,
}

// Sums held as unsigned words are added with wrapping add; mode 1 clamps once.
#[tactic(auto, using(crate::proofs::Cells::limits))]
pub fn limited(mode: Mode, c: u32, plus: u32, minus: u32) -> Cell
    requires { (mode.0 ≤ 1) × (plus ≤ 8388608) × (minus ≤ 8388608) }
    ensures { (result.word ≡ cell_of mode.0 c (sub_ℕ plus minus)) × (result.mark ≡ mark_of mode.0 c (sub_ℕ plus minus)) }
{
    let m = mode.0;
    if m == 0 {
        return Cell {
            word: std::num::wrapping_sub_u32(std::num::wrapping_add_u32(c, plus), minus),
            mark: 0,
        };
    }
    let above = std::num::wrapping_add_u32(c, 0x8000_0000) as u64 + plus as u64;
    let below = minus as u64;
    if above < below {
        return Cell {
            word: 0x8000_0000,
            mark: 1,
        };
    }
    let exact = above - below;
    if exact < 0x1_0000_0000 {
        Cell {
            word: std::num::wrapping_add_u32(exact as u32, 0x8000_0000),
            mark: 0,
        }
    } else {
        Cell {
            word: 0x7fff_ffff,
            mark: 1,
        }
    }
}

// The marks with mark k set where it is 1; set before, it is kept.
pub fn keep(marks: &mut [u32], k: usize, mark: u32)
    requires { (length marks.old ≡ 4) × (k < 128) × (mark ≤ 1) }
    ensures { marks.new ≡ with_mark k mark marks.old }
{
    if mark == 0 {
        return;
    }
    marks[k / 32] = marks[k / 32] | mark << (k % 32);
}
