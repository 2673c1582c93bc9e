// What the lookup program prints for its input: a line for each record of four bytes.
#![tactic(auto)]

ghost use Rattle.std.specs.Prelude.{Ok, ◌≡◌, ◌+◌, ◌*◌, ◌/◌, ◌<◌, ◌≤◌, length, take};
ghost use Rattle.places.specs.PlaceCalls.{told_place, place_answer};
ghost use Rattle.lookup_text.specs.Text.{line_of, printed};
ghost use Rattle.text.specs.Text.{HasRoom, Put, Pushed};

use kinds::{Element, Kind, Lane, Role};
use places::Placed;
use text::Text;

#[tactic(auto, using(crate::proofs::Laws::one, crate::proofs::Laws::two, crate::proofs::Laws::three))]
fn put_place(text: &mut Text<'_>, place: Placed)
    requires { HasRoom 13 text.old × (place.row.0 < 1000) × (place.column.0 < 1000) × (place.word.0 < 10) × (place.bit.0 < 100) }
    ensures { Pushed (line_of (told_place (Ok place))) text.old text.new × (text.new.len ≤ text.old.len + 13) }
{
    text.push_decimal(place.row.0 as u64);
    text.push_next(place.column.0);
    text.push_next(place.word.0);
    text.push_next(place.bit.0);
    text.push(b'\n');
}

// The line of one record.
#[tactic(auto, using(crate::proofs::Laws::three, text::proofs::Laws::refused_length))]
pub fn put_line(text: &mut Text<'_>, kind: u8, role: u8, lane: u8, element: u8)
    requires { HasRoom 13 text.old }
    ensures { Pushed (line_of (place_answer kind role lane element)) text.old text.new × (text.new.len ≤ text.old.len + 13) }
{
    match places::place(
        Kind(kind as u32),
        Role(role as u32),
        Lane(lane as u32),
        Element(element as u32),
    ) {
        Ok(place) => put_place(text, place),
        Err(refusal) => text.push_refused(refusal.number()),
    }
}

// All that is printed for a part of the input that ends at a whole record or at the end of the input; the answer is the text's length.
// The second `ensures` is what `&out[..r]` asks of its caller.
pub fn put_lines(records: &[u8], out: &mut [u8]) -> usize
    requires { 14 * (length records.now / 4 + 1) ≤ length out.old }
    ensures put { Put (printed records.now) out.old 0 out.new result }
    ensures upper_bound { (result ≤ length out.new) × (result ≡ length (take result out.new)) }
{
    let (whole, rest) = records.as_chunks::<4>();
    let mut text = Text::new(out);
    for &[kind, role, lane, element] in whole {
        put_line(&mut text, kind, role, lane, element);
    }
    if !rest.is_empty() {
        text.push_text(b"short record\n");
    }
    text.len()
}
