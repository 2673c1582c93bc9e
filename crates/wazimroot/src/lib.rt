// The C interface: each public call of the bench under a plain name, its answer as one word. include/wazimroot.h says how it is called.
#![tactic(auto)]

ghost use Rattle.places.specs.PlaceCalls.{place_call, find_call};
ghost use Rattle.unpack.specs.UnpackCall.{unpack_call};
ghost use Rattle.pack.specs.PackCall.{pack_call};
ghost use Rattle.template.specs.Templates.{read_call, write_call};
ghost use Rattle.step.specs.StepCalls.{step_call, plain_call};
ghost use Rattle.run.specs.Runs.{zero_run};
ghost use Rattle.scale.specs.ScaleCall.{scale_call};
ghost use Rattle.answers.specs.Calls.{giving};
ghost use Rattle.answers.specs.Promised.{Coded};
ghost use Rattle.words.specs.Words.{four_of, pair_of, words_of, open_in_words, feed_in_words, read_in_words, marks_in_words};

use kinds::{Column, Element, Kind, Lane, Mode, Role, Row, Signs};
use run::Run;
use scale::{ByteId, Side, Size, ThreadId};

// Row, column, word and bit of an element.
#[unsafe(no_mangle)]
pub extern "C" fn wz_place(kind: u32, role: u32, lane: u32, element: u32, out: &mut [u32; 4]) -> u64
    ensures { Coded (giving four_of (place_call kind role lane element)) out.old result out.new }
{
    match places::place(Kind(kind), Role(role), Lane(lane), Element(element)) {
        Ok(p) => {
            words::put_four(out, p.row.0, p.column.0, p.word.0, p.bit.0);
            0
        }
        Err(refusal) => words::code(refusal),
    }
}

// Lane and element of a place.
#[unsafe(no_mangle)]
pub extern "C" fn wz_find(kind: u32, role: u32, row: u32, column: u32, out: &mut [u32; 2]) -> u64
    ensures { Coded (giving pair_of (find_call kind role row column)) out.old result out.new }
{
    match places::find(Kind(kind), Role(role), Row(row), Column(column)) {
        Ok(h) => {
            words::put_pair(out, h.lane.0, h.element.0);
            0
        }
        Err(refusal) => words::code(refusal),
    }
}

// Lane words to a matrix.
#[unsafe(no_mangle)]
pub extern "C" fn wz_unpack(kind: u32, role: u32, words: &[u32], matrix: &mut [u64]) -> u64
    ensures { Coded (unpack_call kind role words.now matrix.old) matrix.old result
        matrix.new }
{
    words::code_of(unpack::unpack(Kind(kind), Role(role), words, matrix))
}

// A matrix to lane words.
#[unsafe(no_mangle)]
pub extern "C" fn wz_pack(kind: u32, role: u32, matrix: &[u64], words: &mut [u32]) -> u64
    ensures { Coded (pack_call kind role matrix.now words.old) words.old result
        words.new }
{
    words::code_of(pack::pack(Kind(kind), Role(role), matrix, words))
}

// One step.
#[unsafe(no_mangle)]
pub extern "C" fn wz_step(
    kind: u32,
    signs: u32,
    mode: u32,
    a: &[u32],
    b: &[u32],
    c: &[u32],
    d: &mut [u32],
) -> u64
    ensures { Coded (step_call kind signs mode a.now b.now c.now
        d.old) d.old result d.new }
{
    words::code_of(step::step(Kind(kind), Signs(signs), Mode(mode), a, b, c, d))
}

// One step with no selectors.
#[unsafe(no_mangle)]
pub extern "C" fn wz_plain_step(kind: u32, a: &[u32], b: &[u32], c: &[u32], d: &mut [u32]) -> u64
    ensures { Coded (plain_call kind a.now b.now c.now d.old)
        d.old result d.new }
{
    words::code_of(step::plain_step(Kind(kind), a, b, c, d))
}

// A newly opened run.
#[unsafe(no_mangle)]
pub extern "C" fn wz_open(
    kind: u32,
    signs: u32,
    mode: u32,
    c: &[u32],
    words: &mut [u32; 136],
) -> u64
    ensures { Coded (open_in_words kind signs mode c.now) (words_of zero_run) result words.new }
{
    let opened = Run::open(Kind(kind), Signs(signs), Mode(mode), c);
    words::put(opened.run, words);
    words::code_of(opened.verdict)
}

// The run with one block more.
#[unsafe(no_mangle)]
pub extern "C" fn wz_feed(words: &mut [u32; 136], a: &[u32], b: &[u32]) -> u64
    ensures { Coded (feed_in_words words.old a.now b.now) words.old result
        words.new }
{
    let fed = words::taken(words).feed(a, b);
    words::put_fed(fed, words)
}

// The used sums.
#[unsafe(no_mangle)]
pub extern "C" fn wz_read(words: &[u32; 136], d: &mut [u32]) -> u64
    ensures { Coded (read_in_words words.now d.old) d.old result d.new }
{
    words::code_of(words::taken(words).read(d).verdict)
}

// The marks of the sums, four words.
#[unsafe(no_mangle)]
pub extern "C" fn wz_marks(words: &[u32; 136], marks: &mut [u32]) -> u64
    ensures { Coded (marks_in_words words.now marks.old) marks.old result
        marks.new }
{
    words::code_of(words::taken(words).marks(marks).verdict)
}

// The exponents of the chosen bytes.
#[unsafe(no_mangle)]
pub extern "C" fn wz_scale(
    size: u32,
    side: u32,
    byte_id: u32,
    thread_id: u32,
    metadata: &[u32],
    out: &mut [i32],
) -> u64
    ensures { Coded (scale_call size side byte_id thread_id metadata.now out.old)
        out.old result out.new }
{
    words::code_of(scale::scale(
        Size(size),
        Side(side),
        ByteId(byte_id),
        ThreadId(thread_id),
        metadata,
        out,
    ))
}

// A template record to its lane words.
#[unsafe(no_mangle)]
pub extern "C" fn wz_template_read(record: &[u8], words: &mut [u32]) -> u64
    ensures { Coded (read_call «record».now words.old) words.old result
        words.new }
{
    words::code_of(template::read(record, words))
}

// Lane words to their template record.
#[unsafe(no_mangle)]
pub extern "C" fn wz_template_write(words: &[u32], record: &mut [u8]) -> u64
    ensures { Coded (write_call words.now «record».old) «record».old result
        «record».new }
{
    words::code_of(template::write(words, record))
}
