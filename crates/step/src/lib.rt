// One multiply step on warp buffers: D is C plus A times B, in the arithmetic kinds.
#![tactic(auto)]

ghost use Rattle.std.specs.Prelude.{◌≡◌, IfOk};
ghost use Rattle.kinds.specs.Kinds.{entry_of};
ghost use Rattle.answers.specs.Promised.{Meets, Replies, Judges};
ghost use Rattle.step_work.specs.Workers.{Ready};
ghost use Rattle.step.specs.StepCalls.{buffer_refusals, step_call, plain_call};
ghost use Rattle.step.specs.Workers.{told_line, selector_call, step_call_in};

use answers::Refusal;
use kinds::{Entry, Kind, Mode, Signs};
use step_work::Selected;

// A kind and its selectors with the kind's line, or refusal 1, 3 or 4, with which a step and the opening of a run begin.
pub fn select(kind: Kind, signs: Signs, mode: Mode) -> Result<Selected, Refusal>
    ensures line { Replies (selector_call kind.0 signs.0 mode.0) (told_line result) }
    ensures asked { IfOk result (λ s. (s.kind ≡ kind) × (s.signs ≡ signs) × (s.mode ≡ mode)) }
{
    let k = kind.0;
    let s = signs.0;
    let m = mode.0;
    if k < 1 {
        return Err(Refusal::UnknownKind);
    }
    if Kind::COUNT < k {
        return Err(Refusal::UnknownKind);
    }
    let line = Entry::of(kind);
    if !line.element.is_arithmetic() {
        return Err(Refusal::NotArithmetic);
    }
    if 3 < s {
        return Err(Refusal::BadSelectors);
    }
    if 1 < m {
        return Err(Refusal::BadSelectors);
    }
    if line.element.is_one_bit() {
        if s != 0 {
            return Err(Refusal::BadSelectors);
        }
    }
    Ok(Selected {
        kind,
        line,
        signs,
        mode,
    })
}

// Refusal 5, by the lengths of A, B, C and D.
fn judge_lengths(s: Selected, a: usize, b: usize, c: usize, d: usize) -> Result<(), Refusal>
    ensures { Judges (buffer_refusals s.kind.0 a b c d) result }
{
    let n = s.lengths();
    if a != n.a {
        return Err(Refusal::WrongLength(0));
    }
    if b != n.b {
        return Err(Refusal::WrongLength(1));
    }
    if c != n.c {
        return Err(Refusal::WrongLength(2));
    }
    if d != n.c {
        return Err(Refusal::WrongLength(3));
    }
    Ok(())
}

// A step whose selectors were judged.
fn step_in(s: Selected, a: &[u32], b: &[u32], c: &[u32], d: &mut [u32]) -> Result<(), Refusal>
    ensures { Meets (step_call_in s.kind.0 s.signs.0 s.mode.0 a.now b.now c.now
        d.old) d.old result d.new }
{
    judge_lengths(s, a.len(), b.len(), c.len(), d.len())?;
    // A step has no use for the marks.
    let mut marks: [u32; 4] = [0; 4];
    s.work(a, b, c, d, &mut marks);
    Ok(())
}

// One step, with selectors.
pub fn step(
    kind: Kind,
    signs: Signs,
    mode: Mode,
    a: &[u32],
    b: &[u32],
    c: &[u32],
    d: &mut [u32],
) -> Result<(), Refusal>
    ensures { Meets (step_call kind.0 signs.0 mode.0 a.now b.now c.now
        d.old) d.old result d.new }
{
    let s = select(kind, signs, mode)?;
    step_in(s, a, b, c, d)
}

// The plain step takes no selectors: signs 0, mode 0.
pub fn plain_step(kind: Kind, a: &[u32], b: &[u32], c: &[u32], d: &mut [u32]) -> Result<(), Refusal>
    ensures { Meets (plain_call kind.0 a.now b.now c.now d.old)
        d.old result d.new }
{
    step(kind, Signs(0), Mode(0), a, b, c, d)
}
