// Multiplication by shifts: a term for each bit of the second factor, by the bit's weight.
ghost use Rattle.std.specs.Prelude.{◌≡◌, ◌+◌, ◌*◌, ◌/◌, ◌%◌, ◌^◌, ◌<◌, ◌≤◌};

// Four numbers by the weights of a digit's bits.
pub fn weighed(ones: u32, twos: u32, fours: u32, eights: u32) -> u32
    requires { (ones ≤ 16777216) × (twos ≤ 16777216) × (fours ≤ 16777216) × (eights ≤ 16777216) }
    ensures { result ≡ ones + 2 * twos + 4 * fours + 8 * eights }
{
    ones + (twos << 1) + (fours << 2) + (eights << 3)
}

// x, where y has bit i.
fn under(x: u32, y: u32, i: u32) -> u32
    requires { i < 4 }
    ensures { (result ≡ x * (y / 2 ^ i % 2)) × (result ≤ x) }
{
    if (y >> i) % 2 == 1 {
        return x;
    }
    0
}

// A product, by the four bits of y.
pub fn times(x: u32, y: u32) -> u32
    requires { (x ≤ 16777216) × (y < 16) }
    ensures is { result ≡ x * y }
    ensures small { result ≤ 15 * x }
{
    weighed(
        under(x, y, 0),
        under(x, y, 1),
        under(x, y, 2),
        under(x, y, 3),
    )
}
