// Words of a fixed pattern are unpacked and packed again, for every kind and role, and written to a template record and read back; then the
// same with lengths, kinds, roles and entries that are refused. A line each, for an operator to read.
#![tactic(auto)]

use answers::Refusal;
use kinds::{Kind, Role};
use std::io;
use test_print::Answer;

// The largest prime below 2^32: sums are taken modulo it.
const PRIME: u64 = 4294967291;

// A kind and a role, with so many words and so many entries.
#[derive(Clone, Copy)]
struct Case(u32, u32, usize, usize);

// An entry that is put at two indices before packing.
#[derive(Clone, Copy)]
struct Spoiled(u64, usize, usize);

// The words and the entries of A, of B and of C of each kind, from 1 on.
const LENGTHS: [[(usize, usize); 3]; 14] = [
    [(32, 1024), (32, 1024), (64, 64)],
    [(64, 256), (32, 128), (128, 128)],
    [(128, 512), (64, 256), (128, 128)],
    [(64, 512), (32, 256), (128, 128)],
    [(128, 1024), (64, 512), (128, 128)],
    [(64, 128), (32, 64), (128, 128)],
    [(64, 128), (32, 64), (64, 128)],
    [(128, 128), (64, 64), (128, 128)],
    [(256, 128), (128, 64), (256, 128)],
    [(64, 32), (64, 32), (128, 64)],
    [(32, 128), (32, 128), (64, 64)],
    [(32, 256), (32, 256), (64, 64)],
    [(64, 2048), (32, 1024), (128, 128)],
    [(128, 4096), (64, 2048), (128, 128)],
];

const REFUSED: [(Case, Option<Spoiled>); 12] = [
    (Case(0, 0, 128, 512), None),
    (Case(15, 3, 127, 511), Some(Spoiled(256, 5, 6))),
    (Case(4294967295, 0, 128, 512), Some(Spoiled(256, 5, 6))),
    (Case(3, 3, 127, 511), Some(Spoiled(256, 5, 6))),
    (Case(3, 0, 127, 512), None),
    (Case(3, 0, 129, 512), None),
    (Case(3, 0, 128, 511), None),
    (Case(3, 0, 128, 513), None),
    (Case(3, 0, 127, 511), None),
    (Case(3, 0, 127, 512), Some(Spoiled(256, 5, 6))),
    (Case(3, 0, 128, 511), Some(Spoiled(256, 5, 6))),
    (Case(9, 2, 0, 0), None),
];

const TOO_WIDE: [(Case, Spoiled); 10] = [
    (Case(1, 0, 32, 1024), Spoiled(2, 3, 1000)),
    (Case(1, 1, 32, 1024), Spoiled(2, 1023, 1023)),
    (Case(4, 0, 64, 512), Spoiled(16, 511, 510)),
    (Case(3, 0, 128, 512), Spoiled(256, 300, 5)),
    (Case(6, 1, 32, 64), Spoiled(65536, 0, 63)),
    (Case(7, 2, 64, 128), Spoiled(65536, 127, 126)),
    (Case(8, 0, 128, 128), Spoiled(4294967296, 64, 65)),
    (Case(6, 2, 128, 128), Spoiled(18446744073709551615, 9, 8)),
    (Case(12, 1, 32, 256), Spoiled(16, 200, 201)),
    (Case(14, 0, 128, 4096), Spoiled(2, 4095, 4000)),
];

// Words and bytes.
const REFUSED_TEMPLATES: [(usize, usize); 5] = [
    (63, 256),
    (65, 256),
    (64, 255),
    (64, 257),
    (63, 255),
];

fn main(rt: HostRuntime) -> io::Result<()> {
    kinds(&rt)?;
    template(&rt, 64, 256)?;
    refusals(&rt)?;
    wide_entries(&rt)?;
    template_refusals(&rt)
}

fn kinds(rt: &impl Print) -> io::Result<()> {
    for (kind, lengths) in (1..15).zip(LENGTHS) {
        roles(rt, kind, lengths)?;
    }
    Ok(())
}

fn roles(rt: &impl Print, kind: u32, lengths: [(usize, usize); 3]) -> io::Result<()> {
    for (role, (words, entries)) in (0..3).zip(lengths) {
        trial(rt, Case(kind, role, words, entries), None)?;
    }
    Ok(())
}

fn refusals(rt: &impl Print) -> io::Result<()> {
    for (case, spoiled) in REFUSED {
        trial(rt, case, spoiled)?;
    }
    Ok(())
}

fn wide_entries(rt: &impl Print) -> io::Result<()> {
    for (case, spoiled) in TOO_WIDE {
        trial(rt, case, Some(spoiled))?;
    }
    Ok(())
}

fn template_refusals(rt: &impl Print) -> io::Result<()> {
    for (words, bytes) in REFUSED_TEMPLATES {
        template(rt, words, bytes)?;
    }
    Ok(())
}

fn trial(rt: &impl Print, case: Case, spoiled: Option<Spoiled>) -> io::Result<()> {
    let Case(kind, role, n, entries) = case;
    let mut words = [0; 256];
    let mut matrix = [0; 4096];
    if let Some(words) = words.get_mut(..n)
        && let Some(matrix) = matrix.get_mut(..entries)
    {
        print!(rt; "kind {kind} role {role}, {n} words, {entries} entries")?;
        there(rt, kind, role, words, matrix)?;
        spoil(rt, matrix, spoiled)?;
        back(rt, kind, role, matrix, words)?;
    }
    Ok(())
}

fn there(
    rt: &impl Print,
    kind: u32,
    role: u32,
    words: &mut [u32],
    matrix: &mut [u64],
) -> io::Result<()> {
    make(words, kind, role);
    let answer = unpack::unpack(Kind(kind), Role(role), words, matrix);
    print!(rt; ": unpack {}, sum {}", Answer(answer), sum(matrix))
}

fn spoil(rt: &impl Print, matrix: &mut [u64], spoiled: Option<Spoiled>) -> io::Result<()> {
    if let Some(Spoiled(entry, first, second)) = spoiled {
        print!(rt; ", {entry} at {first} and {second}")?;
        put(matrix, first, entry);
        put(matrix, second, entry);
    }
    Ok(())
}

fn put(matrix: &mut [u64], i: usize, entry: u64) {
    if let Some(x) = matrix.get_mut(i) {
        *x = entry;
    }
}

fn back(
    rt: &impl Print,
    kind: u32,
    role: u32,
    matrix: &[u64],
    words: &mut [u32],
) -> io::Result<()> {
    make(words, 0, 0);
    let answer = pack::pack(Kind(kind), Role(role), matrix, words);
    print!(rt; ", pack {}", Answer(answer))?;
    print_words(rt, answer, words, kind, role)
}

// The same with a template record of so many bytes.
fn template(rt: &impl Print, n: usize, bytes: usize) -> io::Result<()> {
    let mut words = [0; 256];
    let mut record = [0; 512];
    if let Some(words) = words.get_mut(..n)
        && let Some(record) = record.get_mut(..bytes)
    {
        print!(rt; "template, {n} words, {bytes} bytes")?;
        written_and_read(rt, words, record)?;
    }
    Ok(())
}

fn written_and_read(rt: &impl Print, words: &mut [u32], record: &mut [u8]) -> io::Result<()> {
    make(words, 3, 1);
    let answer = template::write(words, record);
    print!(rt; ": write {}, sum {}", Answer(answer), sum(record))?;
    make(words, 0, 0);
    let answer = template::read(record, words);
    print!(rt; ", read {}", Answer(answer))?;
    print_words(rt, answer, words, 3, 1)
}

// Where the call was accepted the words should be those of the kind and the role again, and otherwise those that stood there.
fn print_words(
    rt: &impl Print,
    answer: Result<(), Refusal>,
    words: &[u32],
    kind: u32,
    role: u32,
) -> io::Result<()> {
    match answer {
        Ok(()) => println!(rt; ", {} words differ", differing(words, kind, role)),
        Err(_) => println!(rt; ", {} words changed", differing(words, 0, 0)),
    }
}

// Word j is kind + j (2654435761 + role), modulo 2^32.
#[derive(Drop)]
struct Pattern {
    word: u32,
    step: u32,
}

impl Pattern {
    fn new(kind: u32, role: u32) -> Self {
        Pattern {
            word: kind,
            step: role.wrapping_add(2654435761),
        }
    }
}

impl Iterator for Pattern {
    type Item = u32;

    fn next(&mut self) -> Option<u32> {
        let word = self.word;
        self.word = word.wrapping_add(self.step);
        Some(word)
    }
}

fn make(words: &mut [u32], kind: u32, role: u32) {
    for (word, x) in words.iter_mut().zip(Pattern::new(kind, role)) {
        *word = x;
    }
}

// How many words are not the pattern's.
fn differing(words: &[u32], kind: u32, role: u32) -> usize {
    words
        .iter()
        .zip(Pattern::new(kind, role))
        .filter(|(word, x)| **word != *x)
        .count()
}

// The entries as digits to the base 65599, modulo PRIME: every entry counts, and its index.
fn sum<T: Copy + Into<u64>>(entries: &[T]) -> u64 {
    entries.iter().fold(0, |s, x| (s % PRIME * 65599 + (*x).into() % PRIME) % PRIME)
}
