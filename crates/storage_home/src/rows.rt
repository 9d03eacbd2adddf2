// The objects by their serials, and which serials are reserved.
ghost use Rattle.std.specs.Prelude.{◌≡◌, ◌/◌, ◌<◌, ℕ, [], Some, None, true, false, is_some, get_or, OnOk, OnErr, IsSome};
ghost use Rattle.std.specs.Option.{option_map};
ghost use Rattle.storage_home.specs.Cells.{TurnsCell};
ghost use Rattle.storage_home.specs.Rows.{reserved_in, chunk_at, cell_in, row_at, object_at, is_reserved_at, TurnsRow, KeepsRows, TurnsObject, KeepsObjects, TurnsReserved, KeepsReserved};

use crate::chunk::{Chunk, WIDTH};
use pss_base::{Bytes, NoMemory};
use recent_table::RecentTable;
use std::alloc::Global;
use table_hash::ByteHasher;
use type_layout::HomeNo;

/// An object as it is stored: its home, and the octets of its record.
#[derive(Drop)]
pub struct Stored {
    pub home: HomeNo,
    pub bytes: Bytes,
}

/// What stands behind a serial. A serial with neither an object nor a reservation has no row.
#[derive(Drop)]
pub struct Row {
    pub object: Option<Stored>,
    pub is_reserved: bool,
}

/// The rows of 64 neighbouring serials lie together, under the number of these 64. Serials are given one after the other, so
/// that what is asked for in their order is found where the last one was, or behind it.
#[derive(Drop)]
pub struct Rows {
    chunks: RecentTable<u64, Chunk, ByteHasher>,
}

pub fn empty(alloc: Global) -> Rows
    ensures { result.chunks ≡ [] }
{
    Rows {
        chunks: RecentTable::new(alloc),
    }
}

/// The object with a serial, where there is one.
pub fn object_of(rows: &Rows, serial: u64) -> Option<&Stored>
    ensures { option_map (λ object. object.now) result ≡ object_at serial rows.now.chunks }
{
    match row_of(rows, serial) {
        Some(row) => row.object.as_ref(),
        None => None,
    }
}

pub fn is_reserved(rows: &Rows, serial: u64) -> bool
    ensures { result ≡ is_reserved_at serial rows.now.chunks }
{
    match row_of(rows, serial) {
        Some(row) => row.is_reserved,
        None => false,
    }
}

/// Reserves a serial. Its object, where there is one, stays.
///
/// `NoMemory`: all is as before.
#[inline(always)]
pub fn reserve(alloc: Global, rows: &mut Rows, serial: u64) -> Result<(), NoMemory>
    ensures objects { KeepsObjects rows.old.chunks rows.new.chunks }
    ensures ok { OnOk result (TurnsReserved rows.old.chunks rows.new.chunks serial true) }
    ensures err { OnErr result (KeepsReserved rows.old.chunks rows.new.chunks) }
{
    match rows.chunks.get_mut(serial / WIDTH) {
        Some(chunk) => reserve_in(chunk, serial % WIDTH),
        None => begin(alloc, rows, serial, reserved()),
    }
}

/// Puts an object in the place of a reservation. The one that was there goes.
pub fn put(rows: &mut Rows, serial: u64, object: Stored)
    requires { is_reserved_at serial rows.old.chunks ≡ true }
    ensures objects { TurnsObject rows.old.chunks rows.new.chunks serial (Some object) }
    ensures reserved { TurnsReserved rows.old.chunks rows.new.chunks serial false }
{
    let row = Row {
        object: Some(object),
        is_reserved: false,
    };
    write(rows, serial, row);
}

/// Takes the object with a serial away. A serial that stays reserved keeps its row.
pub fn take(rows: &mut Rows, serial: u64, stays: bool)
    requires { stays ≡ is_reserved_at serial rows.old.chunks }
    ensures objects { TurnsObject rows.old.chunks rows.new.chunks serial None }
    ensures reserved { KeepsReserved rows.old.chunks rows.new.chunks }
{
    if stays {
        write(rows, serial, reserved());
    } else if has_row(rows, serial) {
        remove(rows, serial);
    }
}

// The row of a serial, where it has one.
fn row_of(rows: &Rows, serial: u64) -> Option<&Row>
    ensures { option_map (λ row. row.now) result ≡ row_at serial rows.now.chunks }
{
    match rows.chunks.get(serial / WIDTH) {
        Some(chunk) => chunk.get(serial % WIDTH),
        None => None,
    }
}

fn has_row(rows: &Rows, serial: u64) -> bool
    ensures { result ≡ is_some (row_at serial rows.now.chunks) }
{
    match row_of(rows, serial) {
        Some(_) => true,
        None => false,
    }
}

// A serial without an object that is reserved.
fn reserved() -> Row
    ensures { result ≡ record { object = None; is_reserved = true } }
{
    Row {
        object: None,
        is_reserved: true,
    }
}

// Reserves the serial at a place of its chunk. Its object, where there is one, stays.
fn reserve_in(chunk: &mut Chunk, place: u64) -> Result<(), NoMemory>
    requires { place < 64 }
    ensures ok { OnOk result (TurnsCell chunk.old chunk.new place (Some (reserved_in (get_or chunk.old place None)))) }
    ensures err { OnErr result (chunk.new ≡ chunk.old) }
{
    match chunk.get(place) {
        Some(_) => {
            chunk.reserve(place);
            Ok(())
        }
        None => chunk.insert(place, reserved()),
    }
}

// Puts a row in the place of another.
fn write(rows: &mut Rows, serial: u64, row: Row)
    requires { IsSome (row_at serial rows.old.chunks) }
    ensures { TurnsRow rows.old.chunks rows.new.chunks serial (Some row) }
{
    match rows.chunks.get_mut(serial / WIDTH) {
        Some(chunk) => chunk.write(serial % WIDTH, row),
        None => unreachable!(),
    }
}

// Puts the first row of its 64.
fn begin(alloc: Global, rows: &mut Rows, serial: u64, row: Row) -> Result<(), NoMemory>
    requires { chunk_at (serial / 64) rows.old.chunks ≡ None }
    ensures ok { OnOk result (TurnsRow rows.old.chunks rows.new.chunks serial (Some row)) }
    ensures err { OnErr result (rows.new.chunks ≡ rows.old.chunks) }
{
    let mut chunk = Chunk::new(alloc);
    chunk.insert(serial % WIDTH, row)?;
    rows.chunks.insert(serial / WIDTH, chunk)?;
    Ok(())
}

// Takes the row of a serial away, and with the last of its 64 what is left of these.
fn remove(rows: &mut Rows, serial: u64)
    requires { IsSome (row_at serial rows.old.chunks) }
    ensures { TurnsRow rows.old.chunks rows.new.chunks serial None }
{
    clear(rows, serial);
    end(rows, serial / WIDTH);
}

fn clear(rows: &mut Rows, serial: u64)
    requires { IsSome (row_at serial rows.old.chunks) }
    ensures { TurnsRow rows.old.chunks rows.new.chunks serial None }
{
    match rows.chunks.get_mut(serial / WIDTH) {
        Some(chunk) => chunk.remove(serial % WIDTH),
        None => unreachable!(),
    }
}

// Gives a chunk without rows back.
fn end(rows: &mut Rows, number: u64)
    ensures { KeepsRows rows.old.chunks rows.new.chunks }
{
    if is_done(rows, number) {
        rows.chunks.remove(number);
    }
}

fn is_done(rows: &Rows, number: u64) -> bool
    ensures { result ≡ true → (q : ℕ) → cell_in (chunk_at number rows.now.chunks) q ≡ None }
{
    match rows.chunks.get(number) {
        Some(chunk) => chunk.is_empty(),
        None => false,
    }
}
