// The rows of a store's pages are loaded, one by one.
ghost use Rattle.std.specs.Prelude.{ℕ, ◌≡◌, ◌⊎◌, ◌<◌, ◌≤◌, ◌∷◌, [], Err, IfOk, IsSome, OnOk};
ghost use Rattle.std.specs.FinMap.{insert};
ghost use Rattle.std.specs.List.{AllByRecursion};
ghost use Rattle.storage_home.specs.Kept.{IsKept, Keeping, most};
ghost use Rattle.page_format.specs.Rows.{AreApart, weights};
ghost use Rattle.pss_recovery.specs.inner.Adding.{HasHeld, IsAddable, IsOneMore, MayAdd, MayCome, MayMake, addition};
ghost use Rattle.pss_recovery.specs.inner.Checks.{IsWrongAlone};
ghost use Rattle.pss_recovery.specs.inner.Rowwise.{AreAll, AreOver, AreSoFar, AreWithin, IsWrongAt, at_row};
ghost use Rattle.pss_recovery.specs.Loading.{most_octets};
ghost use Rattle.pss_recovery.specs.declared.loading.LoadStop.TheVariants.{Total as TotalIsOver, Wrong as WrongRow};
ghost use Rattle.pss_recovery.specs.declared.checking.RowStop.TheVariants.{Wrong};
ghost use Rattle.pss_base.specs.declared.damage.DamageKind.{DamageKind as Kind};
ghost use Rattle.pss_catalog.specs.Catalog.{Catalog, total};
ghost use Rattle.type_layout.specs.Sound.{IsSoundSchema};
ghost use Rattle.pss_catalog.specs.Changes.{over};

use crate::checking::{RowStop, check_row};
use crate::keys::are_free;
use pss_base::{DamageKind, GREATEST_TOTAL, NoMemory, Put, Puts};
use std::alloc::Global;
use storage_home::{Change, Changes, Homes, KeyValues};
use type_layout::Schema;

// An object that is new, as changes.
fn one_change(alloc: Global, put: Put, keys: KeyValues) -> Result<Changes, NoMemory>
    ensures { IfOk result (λ changes. changes ≡ addition put keys ∷ []) }
{
    let mut changes = Changes::new(alloc);
    changes.push(Change {
        put,
        old_keys: KeyValues::new(alloc),
        new_keys: keys,
    })?;
    Ok(changes)
}

/// Makes changes of the objects, once room is made for them.
pub fn make_changes(homes: &mut Homes, changes: Changes) -> Result<(), NoMemory>
    requires { MayMake homes.old changes }
    ensures { OnOk result ((m : MayMake homes.old changes) → IsKept m.schema (over m.catalog m.steps) homes.new) }
{
    homes.reserve_for(&changes)?;
    homes.apply_reserved(changes);
    Ok(())
}

/// Adds the object of a row. No object that is there has its serial or holds one of its keys.
pub fn add_row(alloc: Global, homes: &mut Homes, row: Put, keys: KeyValues) -> Result<(), NoMemory>
    requires { MayAdd homes.old row keys }
    ensures { OnOk result ((m : MayAdd homes.old row keys) → IsKept m.schema (insert m.catalog row.serial m.object) homes.new) }
{
    let changes = one_change(alloc, row, keys)?;
    make_changes(homes, changes)
}

// The keys of a row that may come behind others.
fn keys_of_row(
    alloc: Global,
    schema: &Schema,
    homes: &Homes,
    row: &Put,
    next: u64,
) -> Result<KeyValues, RowStop>
    requires sound { IsSoundSchema schema.now }
    requires some { IsSome row.now.bytes }
    ensures right { IfOk result (λ keys. (M : Catalog) → IsKept schema.now M homes.now → IsAddable schema.now next M row.now keys) }
    ensures refused { (k : Kind) → result ≡ Err (Wrong k) → IsWrongAlone schema.now next row.now k ⊎ ((M : Catalog) → IsKept schema.now M homes.now → HasHeld schema.now next M row.now k) }
{
    let keys = match check_row(alloc, schema, row, next) {
        Ok(keys) => keys,
        Err(stop) => return Err(stop),
    };
    if are_free(homes, keys.as_slice()) {
        Ok(keys)
    } else {
        Err(RowStop::Wrong(DamageKind::Key))
    }
}

/// Loads a row behind others. It tests, in this order: its home, its record, what that refers to, and its keys.
pub fn load_row(
    alloc: Global,
    schema: &Schema,
    homes: &mut Homes,
    row: Put,
    next: u64,
) -> Result<(), RowStop>
    requires sound { IsSoundSchema schema.now }
    requires some { IsSome row.bytes }
    requires may { (M : Catalog) × MayCome schema.now M homes.old row }
    ensures loaded { OnOk result ((M : Catalog) → MayCome schema.now M homes.old row → IsOneMore schema.now next M row homes.new) }
    ensures refused { (k : Kind) → result ≡ Err (Wrong k) → IsWrongAlone schema.now next row k ⊎ ((M : Catalog) → IsKept schema.now M homes.old → HasHeld schema.now next M row k) }
{
    let keys = match keys_of_row(alloc, schema, homes, &row, next) {
        Ok(keys) => keys,
        Err(stop) => return Err(stop),
    };
    match add_row(alloc, homes, row, keys) {
        Ok(()) => Ok(()),
        Err(_) => Err(RowStop::NoMemory),
    }
}

/// Why rows are not loaded.
#[derive(Clone, Copy, Debug, PartialEq, Eq, Drop)]
pub enum LoadStop {
    /// The row with this index is the first that is wrong, and this is wrong with it.
    Wrong(u64, DamageKind),
    /// The sum of all records with 16 each passes its limit.
    Total,
    /// There was no memory. It may come in place of any other answer.
    NoMemory,
}

// Why a row is not right, with its index.
fn at_row(index: u64, stop: RowStop) -> LoadStop
    ensures { result ≡ at_row index stop }
{
    match stop {
        RowStop::Wrong(kind) => LoadStop::Wrong(index, kind),
        RowStop::NoMemory => LoadStop::NoMemory,
    }
}

// Loads rows, one behind the other.
fn load_all(
    alloc: Global,
    schema: &Schema,
    homes: &mut Homes,
    rows: Vec<Put>,
    next: u64,
) -> Result<(), LoadStop>
    requires sound { IsSoundSchema schema.now }
    requires may { AreSoFar schema.now next rows.items rows.items 0 homes.old }
    ensures loaded { OnOk result (AreAll schema.now next rows.items homes.new) }
    ensures refused { (index : ℕ) (k : Kind) → result ≡ Err (WrongRow index k) → IsWrongAt schema.now next rows.items index k }
    ensures never { result ≡ Err TotalIsOver → ⊥ }
{
    let mut index: u64 = 0;
    for row in rows {
        match load_row(alloc, schema, homes, row, next) {
            Ok(()) => index += 1,
            Err(stop) => return Err(at_row(index, stop)),
        }
    }
    Ok(())
}

/// Loads the rows of a store's pages in their order. Keys are tested by hash, and no record is copied.
pub fn load_rows(alloc: Global, schema: &Schema, rows: Puts, next: u64) -> Result<Homes, LoadStop>
    requires sound { IsSoundSchema schema.now }
    requires some { AllByRecursion (λ row. IsSome row.bytes) rows }
    requires apart { AreApart rows }
    requires small { weights rows ≤ most }
    ensures loaded { IfOk result (AreWithin schema.now next rows) }
    ensures refused { (index : ℕ) (k : Kind) → result ≡ Err (WrongRow index k) → IsWrongAt schema.now next rows index k }
    ensures total { result ≡ Err TotalIsOver → AreOver schema.now next rows }
{
    let Ok(mut homes) = Homes::from_rows(alloc, schema, Puts::new(alloc)) else {
        return Err(LoadStop::NoMemory);
    };
    match load_all(alloc, schema, &mut homes, rows.into_vec(), next) {
        Ok(()) => within(homes),
        Err(stop) => Err(stop),
    }
}

// Objects whose sum is within its limit.
fn within(homes: Homes) -> Result<Homes, LoadStop>
    ensures within { IfOk result (λ same. Keeping homes (λ S M. IsKept S M same × (total S M ≤ most_octets))) }
    ensures over { result ≡ Err TotalIsOver → Keeping homes (λ S M. most_octets < total S M) }
    ensures only { (index : ℕ) (k : Kind) → result ≡ Err (WrongRow index k) → ⊥ }
{
    if homes.total_bytes() > GREATEST_TOTAL {
        return Err(LoadStop::Total);
    }
    Ok(homes)
}
