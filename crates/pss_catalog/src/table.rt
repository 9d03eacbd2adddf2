// The rows of a schema's homes, filled in pass by pass.
ghost use Rattle.std.specs.Prelude.{◌≡◌, ◌≤◌, ◌<◌, ◌+◌, ◌-◌, IfOk, length};
ghost use Rattle.pss_catalog.specs.inner.Rows.{row_at, rows_for, bases_in, counted, placed, size_of, end_of, IsFresh, AreCounted, ArePlaced, HaveOrder};
ghost use Rattle.type_layout.specs.ShapeText.{base_number};

use crate::row::Row;
use pss_base::NoMemory;
use std::alloc::Global;
use type_layout::{Home, HomeNo};

fn base_of(home: &Home) -> u32
    ensures { result ≡ base_number home.now.base }
{
    match home.base {
        Some(base) => base.0,
        None => 0,
    }
}

// The homes with their bases alone.
pub fn rows_of(alloc: Global, homes: &[Home]) -> Result<Vec<Row>, NoMemory>
    ensures { IfOk result (λ rows. rows.items ≡ rows_for homes.now) }
{
    let mut rows = Vec::with_capacity(alloc, homes.len().saturating_add(1))?;
    rows.push(Row {
        base: 0,
        root: 0,
        size: 1,
        place: 0,
        end: 1,
    })?;
    for home in homes {
        rows.push(Row {
            base: base_of(home),
            root: 0,
            size: 1,
            place: 0,
            end: 0,
        })?;
    }
    Ok(rows)
}

fn count(rows: &mut [Row], number: usize)
    requires there { number < length rows.old }
    requires above { (row_at rows.old number).base < length rows.old }
    requires fits { size_of rows.old (row_at rows.old number).base + size_of rows.old number ≤ 4294967295 }
    ensures { rows.new ≡ counted rows.old number }
{
    let row = rows[number];
    rows[row.base as usize].size += row.size;
}

// Each home gives its size to its base, the last one first.
fn count_all(rows: &mut [Row])
    requires { IsFresh (length rows.old - 1) rows.old }
    ensures { AreCounted (length rows.old - 1) (bases_in rows.old) 0 rows.new }
{
    let count_of_rows = rows.len();
    for back in 1..count_of_rows {
        count(rows, count_of_rows - back);
    }
}

fn place(rows: &mut [Row], number: usize)
    requires there { number < length rows.old }
    requires few { length rows.old ≤ 4294967295 }
    requires above { (row_at rows.old number).base < length rows.old }
    requires fits { end_of rows.old (row_at rows.old number).base + size_of rows.old number ≤ 4294967295 }
    requires more { end_of rows.old (row_at rows.old number).base < 4294967295 }
    ensures { rows.new ≡ placed rows.old number }
{
    let row = rows[number];
    let above = rows[row.base as usize];
    rows[row.base as usize] = Row {
        end: above.end + row.size,
        ..above
    };
    rows[number] = Row {
        root: if row.base == 0 {
            number as u32
        } else {
            above.root
        },
        place: above.end,
        end: above.end + 1,
        ..row
    };
}

// Each home stands where the places of its base go on, the first one first.
fn place_all(rows: &mut [Row])
    requires { AreCounted (length rows.old - 1) (bases_in rows.old) 0 rows.old }
    ensures { ArePlaced (length rows.old - 1) (bases_in rows.old) (length rows.old) rows.new }
{
    for number in 1..rows.len() {
        place(rows, number);
    }
}

fn fill(rows: &mut [Row])
    requires { IsFresh (length rows.old - 1) rows.old }
    ensures { ArePlaced (length rows.old - 1) (bases_in rows.old) (length rows.old) rows.new }
{
    count_all(rows);
    place_all(rows);
}

// The rows with counts and places.
pub fn filled(mut rows: Vec<Row>) -> Vec<Row>
    requires { IsFresh (length rows.items - 1) rows.items }
    ensures { ArePlaced (length rows.items - 1) (bases_in rows.items) (length rows.items) result.items }
{
    fill(&mut rows);
    rows
}

// The homes in the order of their places.
pub fn order_of(alloc: Global, rows: &[Row]) -> Result<Vec<HomeNo>, NoMemory>
    requires { ArePlaced (length rows.now - 1) (bases_in rows.now) (length rows.now) rows.now }
    ensures { IfOk result (λ order. HaveOrder rows.now order.items) }
{
    let mut order = Vec::with_capacity(alloc, rows.len())?;
    for _ in 1..rows.len() {
        order.push(HomeNo(0))?;
    }
    put_all(&mut order, rows);
    Ok(order)
}

fn put_all(order: &mut [HomeNo], rows: &[Row])
    requires placed { ArePlaced (length rows.now - 1) (bases_in rows.now) (length rows.now) rows.now }
    requires room { length order.old + 1 ≡ length rows.now }
    ensures { HaveOrder rows.now order.new }
{
    for number in 1..rows.len() {
        order[rows[number].place as usize - 1] = HomeNo(number as u32);
    }
}
