// The shape of a store and a row of its pages, each by itself.
ghost use Rattle.std.specs.Prelude.{◌≡◌, Err, IfErr, IfOk, IsSome, OnOk};
ghost use Rattle.pss_base.specs.declared.damage.DamageKind.{DamageKind as Kind};
ghost use Rattle.pss_base.specs.declared.damage.DamageKind.TheVariants as kind;
ghost use Rattle.type_layout.specs.ShapeText.{shape_text};
ghost use Rattle.type_layout.specs.Sound.{IsSoundLayout, IsSoundSchema};
ghost use Rattle.type_layout.specs.Spelling.{record_spelling};
ghost use Rattle.type_layout.specs.Values.{IsRecord};
ghost use Rattle.pss_recovery.specs.declared.checking.RowStop.TheVariants.{Wrong};
ghost use Rattle.pss_recovery.specs.Loading.{IsStored, RefersBelow};
ghost use Rattle.pss_recovery.specs.inner.Checks.{AreNoRecord, IsRightAlone, IsShapeRefusal, IsWrongAlone, object_of};

use crate::fault::MountFault;
use crate::references::record_refers_below;
use crate::shapes::first_difference;
use cdr_codec::{RecordFault, decode};
use pss_base::{DamageKind, NoMemory, Put};
use std::alloc::Global;
use storage_home::{KeyValues, keys_of_record};
use type_layout::{Home, HomeNo, Record, Schema, home_at, shape_of};

/// Tests that the shape of a store is that of the schema.
pub fn test_shape(alloc: Global, schema: &Schema, shape: &[u8]) -> Result<(), MountFault>
    requires { IsSoundSchema schema.now }
    ensures same { OnOk result (shape.now ≡ shape_text schema.now) }
    ensures refused { IfErr result (IsShapeRefusal schema.now shape.now) }
{
    let Ok(own) = shape_of(alloc, schema) else {
        return Err(MountFault::NoMemory);
    };
    match first_difference(own.as_slice(), shape) {
        None => Ok(()),
        Some(home) => Err(MountFault::ShapeDiffers(HomeNo(home))),
    }
}

/// Why a row is not right.
#[derive(Clone, Copy, Debug, PartialEq, Eq, Drop)]
pub enum RowStop {
    /// This is wrong with it.
    Wrong(DamageKind),
    /// There was no memory. It may come in place of any other answer.
    NoMemory,
}

// The record that octets spell.
fn record_in(alloc: Global, home: &Home, bytes: &[u8]) -> Result<Record, RowStop>
    requires { IsSoundLayout home.now.layout.members }
    ensures found { IfOk result (λ values. IsRecord home.now.layout.members values × (bytes.now ≡ record_spelling home.now.layout.members values)) }
    ensures refused { (k : Kind) → result ≡ Err (Wrong k) → (k ≡ kind.Record) × AreNoRecord home.now.layout.members bytes.now }
{
    match decode(alloc, &home.layout, bytes) {
        Ok(values) => Ok(values),
        Err(RecordFault::NoMemory) => Err(RowStop::NoMemory),
        Err(_) => Err(RowStop::Wrong(DamageKind::Record)),
    }
}

// The record of a row.
fn values_of(alloc: Global, schema: &Schema, row: &Put, next: u64) -> Result<Record, RowStop>
    requires sound { IsSoundSchema schema.now }
    requires some { IsSome row.now.bytes }
    ensures stored { IfOk result (λ values. IsStored schema.now row.now (object_of row.now values)) }
    ensures refers { IfOk result (λ values. RefersBelow next (object_of row.now values)) }
    ensures refused { (k : Kind) → result ≡ Err (Wrong k) → IsWrongAlone schema.now next row.now k }
{
    let Some(home) = home_at(schema, HomeNo(row.home)) else {
        return Err(RowStop::Wrong(DamageKind::Entry));
    };
    let Some(bytes) = &row.bytes else {
        unreachable!()
    };
    let values = match record_in(alloc, home, bytes.as_slice()) {
        Ok(values) => values,
        Err(stop) => return Err(stop),
    };
    if record_refers_below(&values, next) {
        Ok(values)
    } else {
        Err(RowStop::Wrong(DamageKind::Ref))
    }
}

/// Tests a row by itself, in this order: its home, its record, what the record refers to. It gives the keys that the row holds, each
/// with its bytes.
pub fn check_row(alloc: Global, schema: &Schema, row: &Put, next: u64) -> Result<KeyValues, RowStop>
    requires sound { IsSoundSchema schema.now }
    requires some { IsSome row.now.bytes }
    ensures right { IfOk result (IsRightAlone schema.now next row.now) }
    ensures refused { (k : Kind) → result ≡ Err (Wrong k) → IsWrongAlone schema.now next row.now k }
{
    let values = match values_of(alloc, schema, row, next) {
        Ok(values) => values,
        Err(stop) => return Err(stop),
    };
    match keys_of_record(alloc, schema, HomeNo(row.home), &values) {
        Ok(keys) => Ok(keys),
        Err(_) => Err(RowStop::NoMemory),
    }
}
