// What the replay program prints for its input: a line for each step record, by the D that it ought to have.
#![tactic(auto)]

ghost use Rattle.std.specs.Prelude.{Some, Ok, ◌≡◌, ◌+◌, ◌*◌, ◌^◌, ◌<◌, ◌≤◌, length, take};
ghost use Rattle.answers.specs.Promised.{Replies};
ghost use Rattle.kinds.specs.Kinds.{entry_of, Arithmetic};
ghost use Rattle.buffers.specs.Buffers.{words_needed};
ghost use Rattle.step_work.specs.Workers.{Ready};
ghost use Rattle.records.specs.Records.{record_bytes, words_in};
ghost use Rattle.text.specs.Text.{HasRoom, Put, Pushed};
ghost use Rattle.replay_text.specs.Verdicts.{compared, replay_call, verdict_of, told_replay, told_wrong};
ghost use Rattle.replay_text.specs.Workers.{word_no, step_words, compared_by};
ghost use Rattle.replay_text.specs.Text.{verdict_text, line_of, whole_records, printed_from};

use answers::Refusal;
use kinds::{Column, Row, rule};
use step_work::Selected;
use text::Text;

// The first place, row by row, at which D is wrong.
#[derive(Clone, Copy, Debug, PartialEq, Eq)]
pub struct Wrong {
    pub row: Row,
    pub column: Column,
}

// So many words of a part of a record.
fn words_of(part: &[u8], n: usize) -> [u32; 128]
    requires { (n ≤ 128) × (4 * n ≤ length part.now) }
    ensures { (length result ≡ 128) × (take n result ≡ words_in n part.now) }
{
    let mut words: [u32; 128] = [0; 128];
    records::read_words(part, &mut words[..n]);
    words
}

// The words that D ought to have.
fn work(s: Selected, record: &[u8], d: &mut [u32])
    requires { (length «record».now ≡ record_bytes) × (length d.old ≡ words_needed s.kind.0 2) }
    ensures { d.new ≡ step_words s.kind.0 s.signs.0 s.mode.0 «record».now }
{
    let n = s.lengths();
    let na = n.a;
    let nb = n.b;
    let nc = n.c;
    let a = words_of(&record[records::BEGIN_A..records::BEGIN_B], na);
    let b = words_of(&record[records::BEGIN_B..records::BEGIN_C], nb);
    let c = words_of(&record[records::BEGIN_C..records::BEGIN_D], nc);
    // A verdict has no use for the marks.
    let mut marks: [u32; 4] = [0; 4];
    s.work(&a[..na], &b[..nb], &c[..nc], d, &mut marks);
}

// The word of D in which a place stands, by the words of a lane and the halves of eight rows.
fn word_of(words: usize, halves: usize, place: usize) -> usize
    requires { (words ≤ 4) × (halves ≤ 2) × (place < 128) }
    ensures is { result ≡ word_no words halves place }
    ensures small { result < 1152 }
{
    let row = place / 8;
    let column = place % 8;
    rule::lane_at(2, row, column) * words + rule::element_at(2, halves, row, column)
}

// The first place, row by row, at which the matrices of two warp buffers of D differ, where they do.
fn first_wrong(s: Selected, log: &[u32], right: &[u32]) -> Option<Wrong>
    requires { (length log.now ≡ words_needed s.kind.0 2) × (length right.now ≡ words_needed s.kind.0 2) }
    ensures { told_wrong result ≡ compared s.kind.0 log.now right.now }
{
    let words = s.line.c as usize;
    let halves = (s.line.m / 8) as usize;
    let places = halves * 64;
    for place in 0..places {
        let word = word_of(words, halves, place);
        if log[word] != right[word] {
            return Some(Wrong {
                row: Row((place / 8) as u32),
                column: Column((place % 8) as u32),
            });
        }
    }
    None
}

// What is wrong in a record that was judged.
fn compare(s: Selected, record: &[u8]) -> Option<Wrong>
    requires { length «record».now ≡ record_bytes }
    ensures { told_wrong result ≡ compared_by s.kind.0 s.signs.0 s.mode.0 «record».now }
{
    let n = s.lengths().c;
    let log = words_of(&record[records::BEGIN_D..records::BYTES], n);
    let mut right: [u32; 128] = [0; 128];
    work(s, record, &mut right[..n]);
    first_wrong(s, &log[..n], &right[..n])
}

// The verdict of a record: where its D is wrong, if anywhere, or its refusal.
pub fn replay(record: &[u8]) -> Result<Option<Wrong>, Refusal>
    requires { length «record».now ≡ record_bytes }
    ensures { Replies (replay_call «record».now) (told_replay result) }
{
    let s = records::judge(record)?;
    Ok(compare(s, record))
}

#[tactic(auto, using(crate::proofs::Lines::ten), unfolding(crate::specs::Text::verdict_text))]
fn put_wrong(text: &mut Text<'_>, first: Wrong)
    requires { HasRoom 28 text.old }
    ensures { Pushed (verdict_text (told_replay (Ok (Some first)))) text.old text.new × (text.new.len ≤ text.old.len + 28) }
{
    text.push_text(b"wrong");
    text.push_next(first.row.0);
    text.push_next(first.column.0);
    text.push(b'\n');
}

#[tactic(auto, using(crate::proofs::Lines::ten, text::proofs::Laws::refused_length), unfolding(crate::specs::Text::verdict_text))]
fn put_verdict(text: &mut Text<'_>, verdict: Result<Option<Wrong>, Refusal>)
    requires { HasRoom 28 text.old }
    ensures { Pushed (verdict_text (told_replay verdict)) text.old text.new × (text.new.len ≤ text.old.len + 28) }
{
    match verdict {
        Ok(None) => text.push_text(b"ok\n"),
        Ok(Some(first)) => put_wrong(text, first),
        Err(refusal) => text.push_refused(refusal.number()),
    }
}

// The line of one record.
#[tactic(auto, using(crate::proofs::Lines::twenty))]
pub fn put_line(text: &mut Text<'_>, number: u64, record: &[u8])
    requires { HasRoom 49 text.old × (length «record».now ≡ record_bytes) }
    ensures { Pushed (line_of number (verdict_of «record».now)) text.old text.new × (text.new.len ≤ text.old.len + 49) }
{
    text.push_decimal(number);
    text.push(b' ');
    put_verdict(text, replay(record));
}

// All that is printed for a part of the input that ends at a whole record or at the end of the input, whose first record has that number; the answer is
// the text's length. The second `ensures` is what `&out[..r]` asks of its caller.
#[tactic(auto, unfolding(crate::specs::Text::lines_of))]
pub fn put_lines(number: u64, bytes: &[u8], out: &mut [u8]) -> usize
    requires { (49 * whole_records bytes.now ≤ length out.old) × (number + whole_records bytes.now < 2 ^ 64) }
    ensures put { Put (printed_from number bytes.now) out.old 0 out.new result }
    ensures upper_bound { (result ≤ length out.new) × (result ≡ length (take result out.new)) }
{
    let (whole, _) = bytes.as_chunks::<{ records::BYTES }>();
    let mut text = Text::new(out);
    for (i, record) in whole.iter().enumerate() {
        put_line(&mut text, number + i as u64, record);
    }
    text.len()
}
