// What lookup prints at the corners: every kind 0 to 15 and role 0 to 3, with lanes 0, 31 and 32 and elements 0, the last, the next
// and 255, each line after its record's four numbers.
#![tactic(auto)]

use std::io;

// The last elements of A, of B and of C of each kind, from 0 on; where there is none, 0.
const LAST: [[u8; 3]; 16] = [
    [0, 0, 0],
    [31, 31, 1],
    [7, 3, 3],
    [15, 7, 3],
    [15, 7, 3],
    [31, 15, 3],
    [3, 1, 3],
    [3, 1, 3],
    [3, 1, 3],
    [3, 1, 3],
    [0, 0, 1],
    [3, 3, 1],
    [7, 7, 1],
    [63, 31, 3],
    [127, 63, 3],
    [0, 0, 0],
];

fn line(rt: &impl Print, record: [u8; 4]) -> io::Result<()> {
    let [kind, role, lane, element] = record;
    print!(rt; "{kind} {role} {lane} {element}: ")?;
    let mut text = [0u8; 28];
    let end = lookup_text::put_lines(&record, &mut text);
    rt.write_all(&text[..end])
}

fn elements(rt: &impl Print, kind: u8, role: u8, lane: u8, last: u8) -> io::Result<()> {
    for element in [0, last, last.wrapping_add(1), 255] {
        line(rt, [kind, role, lane, element])?;
    }
    Ok(())
}

fn lanes(rt: &impl Print, kind: u8, role: u8, last: u8) -> io::Result<()> {
    for lane in [0, 31, 32] {
        elements(rt, kind, role, lane, last)?;
    }
    Ok(())
}

fn roles(rt: &impl Print, kind: u8, last: [u8; 3]) -> io::Result<()> {
    let [a, b, c] = last;
    for (role, last) in [(0, a), (1, b), (2, c), (3, 0)] {
        lanes(rt, kind, role, last)?;
    }
    Ok(())
}

fn main(rt: HostRuntime) -> io::Result<()> {
    for (kind, last) in (0..16).zip(LAST) {
        roles(&rt, kind, last)?;
    }
    Ok(())
}
