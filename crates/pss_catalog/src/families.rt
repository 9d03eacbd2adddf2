// Storage homes by what they derive from, as a table.
ghost use Rattle.std.specs.Prelude.{◌≡◌, ◌↔◌, ◌≤◌, ◌+◌, ◌-◌, IfOk, IsTrue, length, take, drop};
ghost use Rattle.type_layout.specs.Schemas.{descends, DescendsFrom};
ghost use Rattle.type_layout.specs.Sound.{IsSoundSchema};
ghost use Rattle.pss_catalog.specs.Families.{bases_of, WithBases, IsRootOf, AreHeirs};
ghost use Rattle.pss_catalog.specs.inner.Rows.{bases_in, ArePlaced, row_in, tells};

use crate::row::Row;
use crate::table::{filled, order_of, rows_of};
use pss_base::NoMemory;
use std::alloc::Global;
use std::marker::Model;
use type_layout::{HomeNo, Schema};

/// The families of a schema's homes, made once: which homes derive from which is told in constant time,
/// and those that derive from a home stand together. It takes 24 bytes for each home.
#[derive(Drop)]
pub struct Families {
    rows: Vec<Row>,
    order: Vec<HomeNo>,
}

impl Model for Families {
    ghost use Rattle.std.specs.Prelude.{List, ℕ, drop};
    ghost use Rattle.pss_catalog.specs.inner.Rows.{bases_in, HaveOrder};

    ghost Value = { List ℕ };

    ghost view = { λ f. drop 1 (bases_in f.rows.items) };

    ghost invariant = { λ f. HaveOrder f.rows.items f.order.items };
}

impl Families {
    /// The table of a schema. It takes time and memory in the number of its homes.
    pub fn new(alloc: Global, schema: &Schema) -> Result<Families, NoMemory>
        requires { IsSoundSchema schema.now }
        ensures { IfOk result (λ families. families ≡ bases_of schema.now) }
    {
        with_order(alloc, filled(rows_of(alloc, schema.homes.as_slice())?))
    }

    /// Whether a home is `of` or derives from it, by one base or several.
    pub fn is_heir(&self, home: HomeNo, of: HomeNo) -> bool
        ensures value { WithBases self.now (λ S. result ≡ descends S home of) }
        ensures meaning { WithBases self.now (λ S. IsTrue result ↔ DescendsFrom S home of) }
    {
        let row = row_of(self.rows.as_slice(), home);
        let above = row_of(self.rows.as_slice(), of);
        is_below(row, above, home, of)
    }

    /// A home that is there and all homes that derive from it, each once, itself first. There are none
    /// of a home that is not there.
    pub fn heirs(&self, of: HomeNo) -> &[HomeNo]
        ensures { WithBases self.now (λ S. AreHeirs S of result.now) }
    {
        match row_of(self.rows.as_slice(), of) {
            Some(row) => part_of(self.order.as_slice(), row),
            None => &[],
        }
    }

    /// The home without base from which a home derives, or itself where it has none: two homes are of one
    /// family where this is the same, and the family is its heirs.
    pub fn root(&self, home: HomeNo) -> HomeNo
        ensures { WithBases self.now (λ S. IsRootOf S home result) }
    {
        match row_of(self.rows.as_slice(), home) {
            Some(row) => HomeNo(row.root),
            None => home,
        }
    }
}

fn row_of(rows: &[Row], home: HomeNo) -> Option<Row>
    ensures { result ≡ row_in rows.now home.0 }
{
    if home.0 == 0 {
        return None;
    }
    rows.get(home.0 as usize).copied()
}

fn is_below(row: Option<Row>, above: Option<Row>, home: HomeNo, of: HomeNo) -> bool
    ensures { result ≡ tells row above home of }
{
    match (row, above) {
        (Some(row), Some(above)) => above.place <= row.place && row.place < above.end,
        _ => home == of,
    }
}

// The homes from a row's place up to its end.
fn part_of(order: &[HomeNo], row: Row) -> &[HomeNo]
    requires place { 1 ≤ row.place }
    requires end { row.place ≤ row.end }
    requires within { row.end ≤ length order.now + 1 }
    ensures { result.now ≡ take (row.end - 1 - (row.place - 1)) (drop (row.place - 1) order.now) }
{
    &order[row.place as usize - 1..row.end as usize - 1]
}

fn with_order(alloc: Global, rows: Vec<Row>) -> Result<Families, NoMemory>
    requires { ArePlaced (length rows.items - 1) (bases_in rows.items) (length rows.items) rows.items }
    ensures { IfOk result (λ families. families ≡ drop 1 (bases_in rows.items)) }
{
    match order_of(alloc, &rows) {
        Ok(order) => Ok(Families { rows, order }),
        Err(NoMemory) => Err(NoMemory),
    }
}
