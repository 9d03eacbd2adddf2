// The rows of neighbouring serials, side by side.
ghost use Rattle.std.specs.Prelude.{◌≡◌, ◌<◌, ◌^◌, Some, None, true, ℕ, get_or, OnOk, OnErr, IsSome};
ghost use Rattle.std.specs.Option.{option_map};
ghost use Rattle.storage_home.specs.Cells.{has_bit, ones_below, with_reservation, TurnsCell};

use crate::rows::Row;
use pss_base::NoMemory;
use std::alloc::Global;
use std::marker::Model;

/// How many serials a chunk is for.
pub const WIDTH: u64 = 64;

/// The rows of 64 neighbouring serials, each in the place of its serial. A place without a row takes no room.
///
/// Contracts see the 64 places in their order.
#[derive(Drop)]
pub struct Chunk {
    /// For each place, from the lowest bit, whether it has a row.
    present: u64,
    /// The rows in the order of their places.
    rows: Vec<Row>,
}

impl Model for Chunk {
    ghost use Rattle.std.specs.Prelude.{◌≡◌, List, Option, length};
    ghost use Rattle.storage_home.specs.declared.rows.Row.{Row};
    ghost use Rattle.storage_home.specs.Cells.{cells_of, ones_below};

    ghost Value = { List (Option Row) };

    ghost view = { λ c. cells_of 64 c.present c.rows.items };

    ghost invariant = { λ c. length c.rows.items ≡ ones_below 64 c.present };
}

impl Chunk {
    /// No rows. It takes no memory.
    pub fn new(alloc: Global) -> Chunk
        ensures { (q : ℕ) → get_or result q None ≡ None }
    {
        Chunk {
            present: 0,
            rows: Vec::new(alloc),
        }
    }

    /// The row in a place, where there is one.
    pub fn get(&self, place: u64) -> Option<&Row>
        requires { place < 64 }
        ensures { option_map (λ row. row.now) result ≡ get_or self.now place None }
    {
        if has_row(self.present, place) {
            self.rows.get(rows_below(self.present, place))
        } else {
            None
        }
    }

    /// Puts a row in a place that has none.
    ///
    /// `NoMemory`: the rows are as before.
    #[inline(always)]
    pub fn insert(&mut self, place: u64, row: Row) -> Result<(), NoMemory>
        requires range { place < 64 }
        requires free { get_or self.old place None ≡ None }
        ensures ok { OnOk result (TurnsCell self.old self.new place (Some row)) }
        ensures err { OnErr result (self.new ≡ self.old) }
    {
        self.rows.insert(rows_below(self.present, place), row)?;
        self.present += bit_of(place);
        Ok(())
    }

    /// Puts a row in the place of another.
    pub fn write(&mut self, place: u64, row: Row)
        requires range { place < 64 }
        requires there { IsSome (get_or self.old place None) }
        ensures { TurnsCell self.old self.new place (Some row) }
    {
        self.rows[rows_below(self.present, place)] = row;
    }

    /// Reserves the serial of a row. Its object, where there is one, stays.
    pub fn reserve(&mut self, place: u64)
        requires range { place < 64 }
        requires there { IsSome (get_or self.old place None) }
        ensures { TurnsCell self.old self.new place (option_map with_reservation (get_or self.old place None)) }
    {
        self.rows[rows_below(self.present, place)].is_reserved = true;
    }

    /// Takes a row away.
    pub fn remove(&mut self, place: u64)
        requires range { place < 64 }
        requires there { IsSome (get_or self.old place None) }
        ensures { TurnsCell self.old self.new place None }
    {
        let _ = self.rows.remove(rows_below(self.present, place));
        self.present -= bit_of(place);
        trim(&mut self.rows);
    }

    /// Tells that no place has a row.
    pub fn is_empty(&self) -> bool
        ensures { result ≡ true → (q : ℕ) → get_or self.now q None ≡ None }
    {
        self.rows.is_empty()
    }
}

fn bit_of(place: u64) -> u64
    requires { place < 64 }
    ensures { result ≡ 2 ^ place }
{
    1 << place
}

fn has_row(present: u64, place: u64) -> bool
    requires { place < 64 }
    ensures { result ≡ has_bit place present }
{
    present >> place & 1 == 1
}

// How many places below this one have a row.
fn rows_below(present: u64, place: u64) -> usize
    requires { place < 64 }
    ensures { result ≡ ones_below place present }
{
    (present & (bit_of(place) - 1)).count_ones() as usize
}

// Gives room back once most of it is empty, so that what a chunk takes stays in proportion to its rows.
// Where a smaller block is not to be had, it keeps the one it has.
fn trim(rows: &mut Vec<Row>)
    ensures { rows.new.items ≡ rows.old.items }
{
    if rows.len() <= rows.capacity() / 4 {
        rows.shrink_to(2 * rows.len());
    }
}
