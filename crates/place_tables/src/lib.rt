// The tables of the busiest layout, kind 5's A: the place of each element, and the reverse.
#![tactic(auto)]

ghost use Rattle.std.specs.Prelude.{◌≡◌, ◌<◌, get_or};
ghost use Rattle.place_tables.specs.Tables.{entries, place_table, holder_table};

mod tables;

// The kind, whose role A has the tables; the bits of an element, and the elements of a lane; rows and columns of the matrix.
pub const KIND: u32 = 5;

pub const BITS: usize = 4;

pub const ELEMENTS: u32 = 32;

pub const ROWS: u32 = 16;

pub const COLUMNS: u32 = 64;

// Entry 32 · lane + element: 64 · row + column.
pub fn place_at(n: usize) -> u16
    requires { n < entries }
    ensures { result ≡ get_or place_table n 0 }
{
    let eight = tables::places(n / 8);
    eight[n % 8]
}

// Entry 64 · row + column: 32 · lane + element.
pub fn holder_at(n: usize) -> u16
    requires { n < entries }
    ensures { result ≡ get_or holder_table n 0 }
{
    let eight = tables::holders(n / 8);
    eight[n % 8]
}
