// Runs of steps: opened from a C buffer, fed blocks of A and B, read into a D buffer, and marked where a sum was cut off. A run goes in and comes back
// by value.
#![tactic(auto)]

ghost use Rattle.std.specs.Prelude.{◌≡◌, ◌*◌, ◌<◌, ◌≤◌, length, [], ◌∷◌, IfOk};
ghost use Rattle.answers.specs.Refusals.{told};
ghost use Rattle.answers.specs.Tests.{differs};
ghost use Rattle.answers.specs.Calls.{◌at◌when◌};
ghost use Rattle.answers.specs.Promised.{Meets, Replies, Judges, Tells};
ghost use Rattle.buffers.specs.Buffers.{words_needed};
ghost use Rattle.step.specs.Workers.{told_line};
ghost use Rattle.run.specs.Runs.{opened_run, zero_run, fed_run};
ghost use Rattle.run.specs.RunCalls.{max_blocks, open_call, feed_call, read_call, marks_call};
ghost use Rattle.run.specs.Workers.{markable, mark_from, run_call, sums_call, words_call};

use answers::Refusal;
use kinds::{Kind, Mode, Signs};
use step_work::Selected;

#[derive(Clone, Copy, Debug, PartialEq, Eq)]
pub struct Run {
    pub kind: Kind,
    pub signs: Signs,
    pub mode: Mode,
    pub blocks: u32,
    pub sums: [u32; 128],
    pub marks: [u32; 4],
}

// A run handed back with the answer of the call: refused too, a run comes back, as it went in or, from an opening, 0 throughout.
#[derive(Clone, Copy)]
pub struct Handed {
    pub run: Run,
    pub verdict: Result<(), Refusal>,
}

impl Run {
    pub const MAX_BLOCKS: u32 = 4096;

    // A run whose sums are C's words, where C was judged.
    fn opened(s: Selected, c: &[u32]) -> Run
        requires { length c.now ≡ words_needed s.kind.0 2 }
        ensures { result ≡ opened_run s.kind.0 s.signs.0 s.mode.0 c.now }
    {
        let n = c.len();
        let mut sums: [u32; 128] = [0; 128];
        sums[..n].copy_from_slice(c);
        Run {
            kind: s.kind,
            signs: s.signs,
            mode: s.mode,
            blocks: 0,
            sums,
            marks: [0; 4],
        }
    }

    // A run that is 0 throughout, which a refused opening hands back.
    fn zero() -> Run
        ensures { result ≡ zero_run }
    {
        Run {
            kind: Kind(0),
            signs: Signs(0),
            mode: Mode(0),
            blocks: 0,
            sums: [0; 128],
            marks: [0; 4],
        }
    }

    // Refusal 5 of C or D, by its length.
    fn judge_sums(s: Selected, sums: usize) -> Result<(), Refusal>
        ensures { Judges (5 at 0 when differs sums (words_needed s.kind.0 2) ∷ []) result }
    {
        if sums != s.lengths().c {
            return Err(Refusal::WrongLength(0));
        }
        Ok(())
    }

    // An opening, or refusal 1, 3, 4 or 5.
    fn try_open(kind: Kind, signs: Signs, mode: Mode, c: &[u32]) -> Result<Run, Refusal>
        ensures { Replies (open_call kind.0 signs.0 mode.0 c.now) (told result) }
    {
        let s = step::select(kind, signs, mode)?;
        Run::judge_sums(s, c.len())?;
        Ok(Run::opened(s, c))
    }

    // A run whose sums are C's words.
    pub fn open(kind: Kind, signs: Signs, mode: Mode, c: &[u32]) -> Handed
        ensures { Meets (open_call kind.0 signs.0 mode.0 c.now) zero_run result.verdict result.run }
    {
        match Run::try_open(kind, signs, mode, c) {
            Ok(run) => Handed {
                run,
                verdict: Ok(()),
            },
            Err(x) => Handed {
                run: Run::zero(),
                verdict: Err(x),
            },
        }
    }

    // The words of marks in which one may be set: those of the sums, in a run that can clamp.
    #[tactic(auto, using(crate::proofs::Laws::markables))]
    fn markable(s: Selected) -> usize
        ensures { (result ≤ 4) × (result * 32 ≡ markable s.kind.0 s.mode.0) }
    {
        let m = s.mode.0;
        if m == 0 {
            return 0;
        }
        if s.line.element.is_one_bit() {
            return 0;
        }
        s.lengths().c / 32
    }

    // Whether a mark is set in that word or behind it.
    fn marked_from(marks: &[u32], from: usize) -> bool
        requires { (from ≤ 4) × (length marks.now ≡ 4) }
        ensures { Tells (mark_from marks.now (from * 32)) result }
    {
        for w in from..4 {
            if marks[w] != 0 {
                return true;
            }
        }
        false
    }

    // Its kind and selectors, or refusal 10.
    fn judge(&self) -> Result<Selected, Refusal>
        ensures run { Replies (run_call self.now) (told_line result) }
        ensures own { IfOk result (λ s. (s.kind ≡ self.now.kind) × (s.signs ≡ self.now.signs) × (s.mode ≡ self.now.mode)) }
    {
        // Copied here and not where they are looked at: words that are read right behind their copy are waited for.
        let marks = self.marks;
        let Ok(s) = step::select(self.kind, self.signs, self.mode) else {
            return Err(Refusal::BadRun);
        };
        if Run::MAX_BLOCKS < self.blocks {
            return Err(Refusal::BadRun);
        }
        if Run::marked_from(&marks, Run::markable(s)) {
            return Err(Refusal::BadRun);
        }
        Ok(s)
    }

    // The run with one block more, or refusal 10, 9 or 5.
    fn try_feed(&self, a: &[u32], b: &[u32]) -> Result<Run, Refusal>
        ensures { Replies (feed_call self.now a.now b.now) (told result) }
    {
        let s = self.judge()?;
        if Run::MAX_BLOCKS <= self.blocks {
            return Err(Refusal::RunFull);
        }
        let n = s.lengths();
        if a.len() != n.a {
            return Err(Refusal::WrongLength(0));
        }
        if b.len() != n.b {
            return Err(Refusal::WrongLength(1));
        }
        Ok(self.fed(s, a, b))
    }

    // The run with one block more, where the block was judged.
    fn fed(&self, s: Selected, a: &[u32], b: &[u32]) -> Run
        requires own { (s.kind ≡ self.now.kind) × (s.signs ≡ self.now.signs) × (s.mode ≡ self.now.mode) ×
            (self.now.blocks < max_blocks) }
        requires a_len { (length a.now ≡ words_needed s.kind.0 0) × (length b.now ≡ words_needed s.kind.0 1) }
        ensures { result ≡ fed_run self.now a.now b.now }
    {
        let n = s.lengths().c;
        // The old sums are C. D starts from them too, so that the unused ones stay.
        let c = self.sums;
        let mut d = self.sums;
        let mut marks = self.marks;
        s.work(a, b, &c[..n], &mut d[..n], &mut marks);
        Run {
            kind: self.kind,
            signs: self.signs,
            mode: self.mode,
            blocks: self.blocks + 1,
            sums: d,
            marks,
        }
    }

    // The run with one block more.
    pub fn feed(self, a: &[u32], b: &[u32]) -> Handed
        ensures { Meets (feed_call self a.now b.now) self result.verdict result.run }
    {
        match self.try_feed(a, b) {
            Ok(run) => Handed {
                run,
                verdict: Ok(()),
            },
            Err(x) => Handed {
                run: self,
                verdict: Err(x),
            },
        }
    }

    // The used sums into D, or refusal 10 or 5.
    fn read_into(&self, d: &mut [u32]) -> Result<(), Refusal>
        ensures { Meets (sums_call self.now d.old) d.old result d.new }
    {
        let s = self.judge()?;
        Run::judge_sums(s, d.len())?;
        // From a copy made here, without which the compiler copies the sums before the run is judged.
        let sums = self.sums;
        let n = d.len();
        d.copy_from_slice(&sums[..n]);
        Ok(())
    }

    // The used sums, into D; the run is as it was.
    pub fn read(self, d: &mut [u32]) -> Handed
        ensures { Meets (read_call self d.old) (d.old, self) result.verdict
            (d.new, result.run) }
    {
        let verdict = self.read_into(d);
        Handed { run: self, verdict }
    }

    // The four words of marks, or refusal 10 or 5.
    fn marks_into(&self, out: &mut [u32]) -> Result<(), Refusal>
        ensures { Meets (words_call self.now out.old) out.old result out.new }
    {
        let _ = self.judge()?;
        if out.len() != 4 {
            return Err(Refusal::WrongLength(0));
        }
        // From a copy, which the compiler knows to lie apart from the buffer.
        let marks = self.marks;
        out.copy_from_slice(&marks);
        Ok(())
    }

    // The four words of marks; the run is as it was.
    pub fn marks(self, out: &mut [u32]) -> Handed
        ensures { Meets (marks_call self out.old) (out.old, self) result.verdict
            (out.new, result.run) }
    {
        let verdict = self.marks_into(out);
        Handed { run: self, verdict }
    }
}
