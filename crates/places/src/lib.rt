// The place of an element, and the reverse question.
#![tactic(auto)]

ghost use Rattle.std.specs.Prelude.{◌≡◌, ◌<◌};
ghost use Rattle.answers.specs.Promised.{Tells, Replies};
ghost use Rattle.kinds.specs.Places.{word_within, lowest_bit};
ghost use Rattle.kinds.specs.Rule.{elements_of, majors, minors, element_of};
ghost use Rattle.places.specs.PlaceCalls.{told_place, told_holder, element_outside, entry_outside, place_call, find_call};
ghost use Rattle.places.specs.Workers.{place_call_in, find_call_in, tabled};

use answers::Refusal;
use kinds::{Bit, Column, Element, Kind, Lane, Layout, Role, Row, Spot, Word};

// Where an element stands: its row and column in the matrix, its word within the lane and its lowest bit in that word.
#[derive(Clone, Copy, Debug, PartialEq, Eq)]
pub struct Placed {
    pub row: Row,
    pub column: Column,
    pub word: Word,
    pub bit: Bit,
}

// Who holds an entry of the matrix.
#[derive(Clone, Copy, Debug, PartialEq, Eq)]
pub struct Held {
    pub lane: Lane,
    pub element: Element,
}

// Whether a lane or an element is past the last. The bits of a lane's words, which the table has, tell the elements: the spans would have to be
// worked out.
fn element_outside(f: &Layout, lane: Lane, element: Element) -> bool
    ensures { Tells (element_outside (elements_of f.now) lane.0 element.0) result }
{
    Lane::COUNT <= lane.0 as usize || f.words * 32 <= element.0 as usize * f.bits
}

fn place_in(f: &Layout, lane: Lane, element: Element) -> Result<Placed, Refusal>
    ensures { Replies (place_call_in f.now lane.0 element.0) (told_place result) }
{
    if element_outside(f, lane, element) {
        Err(Refusal::Outside)
    } else {
        let x = kinds::rule::across(f.side, f.halves, lane, element) as u32;
        let y = kinds::rule::along(f.side, f.halves, lane, element) as u32;
        let spot = Spot::of(f.bits, element);
        let (row, column) = if f.turned { (y, x) } else { (x, y) };
        Ok(Placed {
            row: Row(row),
            column: Column(column),
            word: spot.word,
            bit: spot.bit,
        })
    }
}

// Whether the answers stand in the tables.
fn has_table(kind: Kind, role: Role) -> bool
    ensures { Tells (tabled kind.0 role.0) result }
{
    kind.0 == place_tables::KIND && role.0 == Role::A
}

// Whether a row or a column is past the last; and a lane or its element, asked alike.
fn outside(rows: u32, columns: u32, row: u32, column: u32) -> bool
    ensures { Tells (entry_outside rows columns row column) result }
{
    rows <= row || columns <= column
}

fn place_by_table(lane: Lane, element: Element) -> Result<Placed, Refusal>
    ensures { Replies (place_call 5 0 lane.0 element.0) (told_place result) }
{
    let l = lane.0;
    let i = element.0;
    if outside(Lane::COUNT as u32, place_tables::ELEMENTS, l, i) {
        Err(Refusal::Outside)
    } else {
        let entry = place_tables::place_at((place_tables::ELEMENTS * l + i) as usize) as u32;
        let row = Row(entry / place_tables::COLUMNS);
        let column = Column(entry % place_tables::COLUMNS);
        let spot = Spot::of(place_tables::BITS, element);
        Ok(Placed {
            row,
            column,
            word: spot.word,
            bit: spot.bit,
        })
    }
}

// The place of an element: its row and column, its word within the lane and its lowest bit in that word.
pub fn place(kind: Kind, role: Role, lane: Lane, element: Element) -> Result<Placed, Refusal>
    ensures { Replies (place_call kind.0 role.0 lane.0 element.0) (told_place result) }
{
    if has_table(kind, role) {
        place_by_table(lane, element)
    } else {
        let f = kinds::layout_of(kind, role)?;
        place_in(&f, lane, element)
    }
}

// The spot of its lane in which the entry at a major number x and a minor number y stands.
fn spot_at(f: &Layout, x: usize, y: usize) -> Spot
    requires { (x < majors f.now) × (y < minors f.now) }
    ensures { (result.element.0 ≡ element_of f.now.side f.now.halves x y) × (result.word.0 ≡ word_within f.now.bits
        result.element.0) × (result.bit.0 ≡ lowest_bit f.now.bits result.element.0) }
{
    let i = kinds::rule::element_at(f.side, f.halves, x, y) as u32;
    Spot::of(f.bits, Element(i))
}

// Whether a major or a minor number is past the last. The bits of a warp's words tell the minor numbers: a word of each lane is 1,024 bits,
// and a minor number takes an element for each major one.
fn entry_outside(f: &Layout, x: u32, y: u32) -> bool
    ensures { Tells (entry_outside (majors f.now) (minors f.now) x y) result }
{
    f.halves * 8 <= x as usize || f.words * 1024 <= y as usize * (f.halves * 8 * f.bits)
}

fn find_in(f: &Layout, x: u32, y: u32) -> Result<Held, Refusal>
    ensures { Replies (find_call_in f.now (x, y)) (told_holder result) }
{
    if entry_outside(f, x, y) {
        Err(Refusal::Outside)
    } else {
        let l = kinds::rule::lane_at(f.side, x as usize, y as usize) as u32;
        let element = spot_at(f, x as usize, y as usize).element;
        Ok(Held {
            lane: Lane(l),
            element,
        })
    }
}

fn find_by_table(row: Row, column: Column) -> Result<Held, Refusal>
    ensures { Replies (find_call 5 0 row.0 column.0) (told_holder result) }
{
    let x = row.0;
    let y = column.0;
    if outside(place_tables::ROWS, place_tables::COLUMNS, x, y) {
        Err(Refusal::Outside)
    } else {
        let entry = place_tables::holder_at((place_tables::COLUMNS * x + y) as usize) as u32;
        let lane = Lane(entry / place_tables::ELEMENTS);
        let element = Spot::of(place_tables::BITS, Element(entry % place_tables::ELEMENTS)).element;
        Ok(Held { lane, element })
    }
}

// The reverse question: the lane and the element whose place is at a row and a column.
pub fn find(kind: Kind, role: Role, row: Row, column: Column) -> Result<Held, Refusal>
    ensures { Replies (find_call kind.0 role.0 row.0 column.0) (told_holder result) }
{
    if has_table(kind, role) {
        find_by_table(row, column)
    } else {
        let f = kinds::layout_of(kind, role)?;
        if f.turned {
            find_in(&f, column.0, row.0)
        } else {
            find_in(&f, row.0, column.0)
        }
    }
}
