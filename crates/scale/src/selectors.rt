// The selectors of a call, legal together, and the bytes that they choose.
ghost use Rattle.std.specs.Prelude.{◌≡◌, ◌+◌, ◌*◌, ◌<◌, ◌≤◌, ◌++◌, length, get_or, take, IfOk};
ghost use Rattle.kinds.specs.Kinds.{lanes};
ghost use Rattle.laws.specs.Lists.{tab};
ghost use Rattle.answers.specs.Refusals.{told};
ghost use Rattle.answers.specs.declared.Refusal.TheVariants.{BadScale};
ghost use Rattle.answers.specs.Right.{Right};
ghost use Rattle.answers.specs.Promised.{Tells, Judges};
ghost use Rattle.scale.specs.Bytes.{legal_size, legal_side, legal_byte_id, legal_thread_id, chosen_lanes, byte_of, chosen_bytes, output_length};
ghost use Rattle.scale.specs.Workers.{size_of, side_of, lanes_of, Judged, selector_refusals, length_refusals};

use crate::{ByteId, Side, Size, ThreadId};
use answers::Refusal;
use kinds::Lane;

// Bytes from each chosen lane: a legal size.
#[derive(Clone, Copy, Debug, PartialEq, Eq)]
enum Width {
    One,
    Two,
    Four,
}

impl TryFrom<Size> for Width {
    type Error = Refusal;

    ghost try_from_gives = { λ size. Judged (legal_size size.0) size_of size.0 (BadScale 0) };

    fn try_from(size: Size) -> Result<Width, Refusal> {
        match size.0 {
            1 => Ok(Width::One),
            2 => Ok(Width::Two),
            4 => Ok(Width::Four),
            _ => Err(Refusal::BadScale(0)),
        }
    }
}

impl Width {
    fn bytes(self) -> usize
        ensures { result ≡ size_of self }
    {
        match self {
            Width::One => 1,
            Width::Two => 2,
            Width::Four => 4,
        }
    }

    // Whether so many bytes may begin at byte-id.
    fn begins_at(self, byte_id: ByteId) -> bool
        ensures { Tells (legal_byte_id (size_of self) byte_id.0) result }
    {
        match self {
            Width::One => byte_id.0 <= 3,
            Width::Two => byte_id.0 == 0 || byte_id.0 == 2,
            Width::Four => byte_id.0 == 0,
        }
    }
}

// A legal side.
#[derive(Clone, Copy, Debug, PartialEq, Eq)]
enum Operand {
    A,
    B,
}

impl TryFrom<Side> for Operand {
    type Error = Refusal;

    ghost try_from_gives = { λ side. Judged (legal_side side.0) side_of side.0 (BadScale 1) };

    fn try_from(side: Side) -> Result<Operand, Refusal> {
        match side.0 {
            Side::A => Ok(Operand::A),
            Side::B => Ok(Operand::B),
            _ => Err(Refusal::BadScale(1)),
        }
    }
}

impl Operand {
    // The chosen lanes: two of each quad on side A, one on side B.
    fn lanes(self) -> usize
        ensures { result ≡ output_length 1 (side_of self) }
    {
        match self {
            Operand::A => 16,
            Operand::B => 8,
        }
    }

    #[tactic(auto, using(crate::proofs::Legal::thread_B_tells))]
    fn has_thread(self, thread_id: ThreadId) -> bool
        ensures { Tells (legal_thread_id (side_of self) thread_id.0) result }
    {
        match self {
            Operand::A => thread_id.0 <= 1,
            Operand::B => thread_id.0 <= 3,
        }
    }
}

// The bytes of a word from byte-id on, the low byte first, and zeros behind them.
#[tactic(auto, using(crate::proofs::Laws::low_bytes))]
fn bytes_from(word: u32, byte_id: ByteId) -> [u8; 4]
    requires { byte_id.0 < 4 }
    ensures { result ≡ tab 4 (λ j. byte_of word (byte_id.0 + j)) }
{
    (word >> (8 * byte_id.0)).to_le_bytes()
}

// COUNT bytes of a word from byte-id on, behind the `at` bytes before them.
fn put_bytes<const COUNT: usize>(word: u32, byte_id: ByteId, chosen: &mut [u8], at: usize)
    requires { (0 < COUNT) × (byte_id.0 + COUNT ≤ 4) × (at + COUNT ≤ length chosen.old) }
    ensures { take (at + COUNT) chosen.new
        ≡ take at chosen.old ++ tab COUNT (λ j. byte_of word (byte_id.0 + j)) }
{
    chosen[at..at + COUNT].copy_from_slice(&bytes_from(word, byte_id)[..COUNT]);
}

// The selectors of a legal call: the bytes lie in a word, and the lanes in a quad.
#[derive(Clone, Copy, Debug, PartialEq, Eq)]
pub struct Selectors {
    width: Width,
    operand: Operand,
    byte_id: ByteId,
    thread_id: ThreadId,
    ghost in_word: { byte_id.0 + size_of width ≤ 4 },
    ghost in_quad: { (thread_id.0 + 1) * lanes_of operand ≤ 4 },
}

impl Selectors {
    // The selectors, or the refusal of the first that is illegal.
    pub fn new(
        size: Size,
        side: Side,
        byte_id: ByteId,
        thread_id: ThreadId,
    ) -> Result<Selectors, Refusal>
        ensures right { Right (selector_refusals size.0 side.0 byte_id.0 thread_id.0)
            (told result) }
        ensures same { IfOk result (λ s. (size_of s.width ≡ size.0) × (side_of s.operand ≡ side.0) ×
            (s.byte_id ≡ byte_id) × (s.thread_id ≡ thread_id)) }
    {
        let width = Width::try_from(size)?;
        let operand = Operand::try_from(side)?;
        if !width.begins_at(byte_id) {
            return Err(Refusal::BadScale(2));
        }
        if !operand.has_thread(thread_id) {
            return Err(Refusal::BadScale(3));
        }
        Ok(Selectors {
            width,
            operand,
            byte_id,
            thread_id,
        })
    }

    // The judgement of the lengths of the two buffers.
    pub fn judge_lengths(self, words: usize, numbers: usize) -> Result<(), Refusal>
        ensures { Judges (length_refusals (size_of self.width) (side_of self.operand) words
            numbers) result }
    {
        if words != Lane::COUNT {
            return Err(Refusal::WrongLength(0));
        }
        if numbers != self.operand.lanes() * self.width.bytes() {
            return Err(Refusal::WrongLength(1));
        }
        Ok(())
    }

    // The chosen lane number k, lanes ascending: of each quad, two lanes on side A, from twice the thread-id on, and one on side B, the
    // thread-id.
    #[tactic(auto, using(crate::proofs::Laws::lanes_A, crate::proofs::Laws::lanes_B))]
    fn lane_at(self, k: u32) -> Lane
        requires { k < output_length 1 (side_of self.operand) }
        ensures is { result.0 ≡ get_or (chosen_lanes (side_of self.operand) self.thread_id.0) k 0 }
        ensures in_warp { result.0 < lanes }
    {
        let t = self.thread_id.0;
        match self.operand {
            Operand::A => Lane(k / 2 * 4 + (2 * t + k % 2)),
            Operand::B => Lane(k * 4 + t),
        }
    }

    // The bytes of one chosen lane, behind the `at` bytes before them. Each width is written out: the compiler then needs no loop over the
    // bytes.
    fn put_lane(self, word: u32, chosen: &mut [u8], at: usize)
        requires { at + size_of self.width ≤ length chosen.old }
        ensures { take (at + size_of self.width) chosen.new
            ≡ take at chosen.old ++ tab (size_of self.width) (λ j. byte_of word (self.byte_id.0 + j)) }
    {
        match self.width {
            Width::One => put_bytes::<1>(word, self.byte_id, chosen, at),
            Width::Two => put_bytes::<2>(word, self.byte_id, chosen, at),
            Width::Four => put_bytes::<4>(word, ByteId(0), chosen, at),
        }
    }

    // The chosen bytes, lane by lane. They stand by index: of what is written through `chunks_exact_mut` no proof knows.
    pub fn choose(self, metadata: &[u32], chosen: &mut [u8])
        requires words { length metadata.now ≡ lanes }
        requires room { length chosen.old
            ≡ output_length (size_of self.width) (side_of self.operand) }
        ensures { chosen.new ≡ chosen_bytes (size_of self.width) (side_of self.operand)
            self.byte_id.0 self.thread_id.0 metadata.now }
    {
        for k in 0..self.operand.lanes() {
            let lane = self.lane_at(k as u32).0 as usize;
            self.put_lane(metadata[lane], chosen, k * self.width.bytes());
        }
    }
}
