// What replay prints where the numbers leave 32 bits, and up to the last that it prints: for two step records, of which the second is wrong at row
// 8, column 0, and for a part of a third nothing.
#![tactic(auto)]

ghost use Rattle.std.specs.Prelude.{◌+◌, ◌^◌, ◌<◌};

use std::io;

fn lines(rt: &impl Print, number: u64) -> io::Result<()>
    requires { number + 2 < 2 ^ 64 }
{
    let mut bytes = [0u8; 3601];
    let mut text = [0u8; 98];
    bytes[0] = 3;
    bytes[1800] = 3;
    // Word 2 of its D, which is lane 0's element 2.
    bytes[3096] = 1;
    bytes[3600] = 3;
    let end = replay_text::put_lines(number, &bytes, &mut text);
    rt.write_all(&text[..end])
}

fn main(rt: HostRuntime) -> io::Result<()> {
    lines(&rt, 0)?;
    lines(&rt, 4294967295)?;
    lines(&rt, 18446744073709551613)
}
