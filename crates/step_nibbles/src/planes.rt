// The bits of B's digits as four planes of bytes, one after another, each bit over a whole byte; and the sums of digits under a plane. Sixteen digits
// below 16 add up to less than a byte holds, so that the compiler adds them side by side.
ghost use Rattle.std.specs.Prelude.{◌≡◌, ◌+◌, ◌*◌, ◌<◌, ◌≤◌, length, get_or};
ghost use Rattle.std.specs.Int.Bits.{bit_and};
ghost use Rattle.laws.specs.Bits.{sum_n};
ghost use Rattle.laws.specs.Lists.{fills};
ghost use Rattle.step_nibbles.specs.Planes.{spread_bit, Planes, Small};

// Bit i of a digit, over a whole byte.
fn spread(digit: u8, i: usize) -> u8
    requires { i < 4 }
    ensures { result ≡ spread_bit i digit }
{
    if (digit >> i) % 2 == 1 {
        return 255;
    }
    0
}

// A plane of B's digits, and all four.
fn put_one(y: &[u8; 1024], out: &mut [u8; 2048], i: usize)
    requires { (i < 4) × (length out.old ≡ 2048) }
    ensures { out.new ≡ fills (i * 512) 512 (λ j. spread_bit i (get_or y.now j 0)) out.old }
{
    for j in 0..512 {
        out[i * 512 + j] = spread(y[j], i);
    }
}

pub fn put(y: &[u8; 1024], out: &mut [u8; 2048])
    requires { length out.old ≡ 2048 }
    ensures { Planes y.now out.new }
{
    for i in 0..4 {
        put_one(y, out, i);
    }
}

// The sum of sixteen digits from i on, and of those bits of them that sixteen bytes of a plane have, from j on.
pub fn sum(x: &[u8; 1024], i: usize) -> u32
    requires { (i + 16 ≤ 1024) × Small 16 i x.now }
    ensures { (result ≡ sum_n 16 (λ k. get_or x.now (i + k) 0)) × (result ≤ 240) }
{
    let mut s: u8 = 0;
    for k in 0..16 {
        s += x[i + k];
    }
    s as u32
}

pub fn sum_under(x: &[u8; 1024], p: &[u8; 2048], i: usize, j: usize) -> u32
    requires { (i + 16 ≤ 1024) × (j + 16 ≤ 2048) × Small 16 i x.now }
    ensures { (result ≡ sum_n 16 (λ k. bit_and (get_or x.now (i + k) 0) (get_or p.now (j + k) 0))) × (result ≤ 240) }
{
    let mut s: u8 = 0;
    for k in 0..16 {
        s += x[i + k] & p[j + k];
    }
    s as u32
}
