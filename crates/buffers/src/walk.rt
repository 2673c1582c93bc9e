// How a buffer is filled: stretch by stretch, quad by quad and lane by lane. Unpacking and packing fill theirs so.
ghost use Rattle.std.specs.Prelude.{◌≡◌, ℕ, ◌+◌, ◌*◌, ◌<◌, List, length};
ghost use Rattle.laws.specs.Toward.{Brings, Below};
ghost use Rattle.kinds.specs.Kinds.{lanes};
ghost use Rattle.buffers.specs.Stretches.{stretches_of, LanesOf, EveryLane};

use crate::{Quad, Stretch};
use kinds::{Lane, Layout};

// What fills a buffer of a layout, a stretch of a lane at a time.
pub trait Filling {
    ghost use Rattle.kinds.specs.Rule.{Layout};
    ghost use Rattle.kinds.specs.Laid.{Laid};

    type Item;

    ghost layout: { Self → Layout };

    // What the buffer is to hold, and what it holds.
    ghost target: { Self → List ℕ };

    ghost held: { List Self.Item → List ℕ };

    // The indices of a stretch of a lane.
    ghost Part: { Self → (stretch lane : ℕ) → ℕ → Type 0 };

    fn layout(&self) -> &Layout
        ensures { result.now ≡ layout self.now };

    fn fill_lane(&self, buffer: &mut [Self::Item], stretch: Stretch, lane: Lane)
        requires { (stretch.0 < stretches_of (layout self.now)) × (lane.0 < lanes) ×
            (length (held buffer.old) ≡ length (target self.now)) }
        ensures { Brings (target self.now) (Part self.now stretch.0 lane.0)
            (held buffer.old) (held buffer.new) };

    // Every index is one of a lane's stretch.
    ghost covers: { (f : Self) → Laid (layout f) → (x : ℕ) → x < length (target f) → Below (stretches_of (layout f)) (λ r. EveryLane (Part f r)) x };
}

// The same stretch of a quad's lanes, and of every quad's.
fn fill_quad<F: Filling>(f: &F, buffer: &mut [F::Item], stretch: Stretch, quad: Quad)
    requires { (stretch.0 < stretches_of (F.layout f.now)) × (quad.0 < 8) × (length (F.held buffer.old) ≡
        length (F.target f.now)) }
    ensures { Brings (F.target f.now) (LanesOf (F.Part f.now stretch.0) quad.0)
        (F.held buffer.old) (F.held buffer.new) }
{
    for t in 0..Lane::QUAD {
        f.fill_lane(buffer, stretch, quad.lane(t));
    }
}

fn fill_stretch<F: Filling>(f: &F, buffer: &mut [F::Item], stretch: Stretch)
    requires { (stretch.0 < stretches_of (F.layout f.now)) × (length (F.held buffer.old) ≡ length (F.target f.now)) }
    ensures { Brings (F.target f.now) (EveryLane (F.Part f.now stretch.0)) (F.held buffer.old)
        (F.held buffer.new) }
{
    for quad in 0..Quad::COUNT {
        fill_quad(f, buffer, stretch, Quad(quad));
    }
}

pub fn fill<F: Filling>(f: &F, buffer: &mut [F::Item])
    requires { length (F.held buffer.old) ≡ length (F.target f.now) }
    ensures { F.held buffer.new ≡ F.target f.now }
{
    for stretch in 0..Stretch::count(f.layout()) {
        fill_stretch(f, buffer, Stretch(stretch));
    }
}
