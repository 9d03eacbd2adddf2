// What an owner's changes come to: those that leave another state than was committed.
ghost use Rattle.std.specs.Prelude.{◌≡◌, ◌≤◌, ◌++◌, [], Some, None, IfOk, IfSome, OnOk};
ghost use Rattle.std.specs.FinMap.{get};
ghost use Rattle.std.specs.Option.{option_to_list};
ghost use Rattle.type_layout.specs.Sound.{IsSoundSchema};
ghost use Rattle.pss_catalog.specs.Catalog.{Object, Catalog, object_spelling};
ghost use Rattle.pss_machine.specs.Same.{same_state};
ghost use Rattle.storage_home.specs.Applied.{AreChanges};
ghost use Rattle.storage_home.specs.Changes.{least_next};
ghost use Rattle.owner_view.specs.Keyed.{all_keyed, keys_of};
ghost use Rattle.owner_view.specs.Net.{net_of, AreNet, IsNet, IsNetAt, IsNetIn};
ghost use Rattle.owner_view.specs.Overlay.{changes_in};
ghost use Rattle.owner_view.specs.Seen.{Fits, IsShown, plain_object};
ghost use Rattle.owner_view.specs.States.{told_state, AreInOrder};
ghost use Rattle.owner_view.specs.Stored.{Shows};

use crate::committed::Committed;
use crate::draft::keys_of_changed;
use crate::keyed::keyed_of;
use crate::object::Changed;
use crate::seen::{Seen, home_of};
use crate::states::Told;
use crate::step::Pairs;
use crate::view::{View, stored_at};
use cdr_codec::encode_record;
use pss_base::{Bytes, NoMemory, Put};
use std::alloc::Global;
use std::slice;
use storage_home::{Change, Changes, KeyValues};
use type_layout::{HomeNo, KeyNo, Schema, home_at};

/// The changes that a commit has to make, by rising serials. An object that was set back to what it was
/// committed as is not among them.
pub fn net_changes<C: Committed>(alloc: Global, view: &View<'_, C>) -> Result<Changes, NoMemory>
    requires { Shows C.shows view.now }
    ensures net { IfOk result (λ changes. (v : Shows C.shows view.now) → AreNet view.now.schema.now v.catalog (net_of v.catalog (changes_in view.now.overlay.now)) changes) }
    ensures wanted { IfOk result (λ changes. (v : Shows C.shows view.now) → AreChanges view.now.schema.now v.catalog changes (net_of v.catalog (changes_in view.now.overlay.now))) }
{
    net_all(alloc, view)
}

// The changes at all serials. For one alone no list is made.
fn net_all<C: Committed>(alloc: Global, view: &View<'_, C>) -> Result<Changes, NoMemory>
    requires { Shows C.shows view.now }
    ensures { IfOk result (λ changes. (v : Shows C.shows view.now) → AreNet view.now.schema.now v.catalog (net_of v.catalog (changes_in view.now.overlay.now)) changes) }
{
    match view.overlay.only() {
        Some(serial) => net_at(alloc, view, slice::from_ref(&serial)),
        None => net_at(alloc, view, &view.overlay.in_order()?),
    }
}

// The changes at these serials.
#[inline(always)]
fn net_at<C: Committed>(
    alloc: Global,
    view: &View<'_, C>,
    serials: &[u64],
) -> Result<Changes, NoMemory>
    requires shows { Shows C.shows view.now }
    requires order { AreInOrder view.now.overlay.now.states serials.now }
    ensures { IfOk result (λ changes. (v : Shows C.shows view.now) → AreNet view.now.schema.now v.catalog (net_of v.catalog (changes_in view.now.overlay.now)) changes) }
{
    let mut changes = Changes::with_room(alloc, serials.len())?;
    put_net(&mut changes, alloc, view, serials)?;
    Ok(changes)
}

fn put_net<C: Committed>(
    changes: &mut Changes,
    alloc: Global,
    view: &View<'_, C>,
    serials: &[u64],
) -> Result<(), NoMemory>
    requires shows { Shows C.shows view.now }
    requires order { AreInOrder view.now.overlay.now.states serials.now }
    requires none { changes.old ≡ [] }
    ensures { OnOk result ((v : Shows C.shows view.now) → AreNet view.now.schema.now v.catalog (net_of v.catalog (changes_in view.now.overlay.now)) changes.new) }
{
    for serial in serials {
        let change = net_in(alloc, view, *serial, view.overlay.told(*serial))?;
        put_change(changes, change)?;
    }
    Ok(())
}

fn put_change(changes: &mut Changes, change: Option<Change>) -> Result<(), NoMemory>
    requires { IfSome change (λ c. least_next 0 changes.old ≤ c.put.serial) }
    ensures { OnOk result (changes.new ≡ changes.old ++ option_to_list change) }
{
    match change {
        Some(change) => changes.push(change),
        None => Ok(()),
    }
}

// The change of what was made of an object, where it is another state than was committed.
fn net_in<C: Committed>(
    alloc: Global,
    view: &View<'_, C>,
    serial: u64,
    told: Told<'_>,
) -> Result<Option<Change>, NoMemory>
    requires shows { Shows C.shows view.now }
    requires fits { (x : Object) → told_state told ≡ Some (Some x) → Fits view.now.schema.now x }
    ensures { IfOk result (λ change. (v : Shows C.shows view.now) → IsNetIn view.now.schema.now v.catalog serial (told_state told.entry) change) }
{
    match told {
        Told::Untouched => Ok(None),
        Told::Gone => net_removal(alloc, view, serial),
        Told::There(object) => net_record(alloc, view, serial, object),
    }
}

// ---- removals

fn net_removal<C: Committed>(
    alloc: Global,
    view: &View<'_, C>,
    serial: u64,
) -> Result<Option<Change>, NoMemory>
    requires { Shows C.shows view.now }
    ensures { IfOk result (λ change. (v : Shows C.shows view.now) → IsNetAt view.now.schema.now v.catalog (record { serial = serial; state = None }) change) }
{
    match stored_at(view.committed, serial) {
        Some(seen) => match removal(alloc, view.schema, serial, seen) {
            Ok(change) => Ok(Some(change)),
            Err(NoMemory) => Err(NoMemory),
        },
        None => Ok(None),
    }
}

// The removal of an object that is seen so.
fn removal(alloc: Global, schema: &Schema, serial: u64, seen: Seen<'_>) -> Result<Change, NoMemory>
    requires sound { IsSoundSchema schema.now }
    requires shown { IsShown schema.now seen }
    ensures { IfOk result (λ change. (s : IsShown schema.now seen.entry) (M : Catalog) → get M serial ≡ Some s.object → IsNet schema.now M (record { serial = serial; state = None }) change) }
{
    let had = keyed_of(alloc, schema, seen)?;
    Ok(Change {
        put: Put {
            home: home_of(seen).0,
            serial,
            bytes: None,
        },
        old_keys: KeyValues::from_vec(had),
        new_keys: KeyValues::new(alloc),
    })
}

// ---- records

fn net_record<C: Committed>(
    alloc: Global,
    view: &View<'_, C>,
    serial: u64,
    object: &Changed,
) -> Result<Option<Change>, NoMemory>
    requires shows { Shows C.shows view.now }
    requires fits { Fits view.now.schema.now (plain_object object.now) }
    ensures { IfOk result (λ change. (v : Shows C.shows view.now) → IsNetAt view.now.schema.now v.catalog (record { serial = serial; state = Some (plain_object object.now) }) change) }
{
    let bytes = octets_of(alloc, view.schema, object)?;
    if is_committed(view, serial, object.home, bytes.as_slice()) {
        return Ok(None);
    }
    match pairs_at(alloc, view, serial, object) {
        Ok(pairs) => Ok(Some(recorded(serial, object.home, bytes, pairs))),
        Err(NoMemory) => Err(NoMemory),
    }
}

fn octets_of(alloc: Global, schema: &Schema, object: &Changed) -> Result<Bytes, NoMemory>
    requires { Fits schema.now (plain_object object.now) }
    ensures { IfOk result (λ bytes. bytes ≡ object_spelling schema.now (plain_object object.now)) }
{
    match home_at(schema, object.home) {
        Some(home) => encode_record(alloc, &home.layout, &object.record),
        None => unreachable!(),
    }
}

// Whether the object that was committed at a serial is of this home and has these octets. There is one
// record that has them.
fn is_committed<C: Committed>(view: &View<'_, C>, serial: u64, home: HomeNo, bytes: &[u8]) -> bool
    requires { Shows C.shows view.now }
    ensures { (v : Shows C.shows view.now) (object : Object) → Fits view.now.schema.now object → home ≡ object.home → bytes.now ≡ object_spelling view.now.schema.now object → result ≡ same_state (Some object) (get v.catalog serial) }
{
    match view.committed.object(serial) {
        Some((found, octets)) => found == home && octets == bytes,
        None => false,
    }
}

// The keys of the object that was committed at a serial, none where there was none, and of the one that is there now.
fn pairs_at<C: Committed>(
    alloc: Global,
    view: &View<'_, C>,
    serial: u64,
    object: &Changed,
) -> Result<Pairs, NoMemory>
    requires shows { Shows C.shows view.now }
    requires fits { Fits view.now.schema.now (plain_object object.now) }
    ensures had { IfOk result (λ pairs. (v : Shows C.shows view.now) → pairs.had.items ≡ keys_of view.now.schema.now (get v.catalog serial)) }
    ensures has { IfOk result (λ pairs. pairs.has.items ≡ all_keyed view.now.schema.now (plain_object object.now)) }
{
    let had = committed_keys(alloc, view, serial)?;
    match keys_of_changed(alloc, view.schema, object) {
        Ok(has) => Ok(Pairs { had, has }),
        Err(NoMemory) => Err(NoMemory),
    }
}

fn committed_keys<C: Committed>(
    alloc: Global,
    view: &View<'_, C>,
    serial: u64,
) -> Result<Vec<(KeyNo, Bytes)>, NoMemory>
    requires { Shows C.shows view.now }
    ensures { IfOk result (λ pairs. (v : Shows C.shows view.now) → pairs.items ≡ keys_of view.now.schema.now (get v.catalog serial)) }
{
    match stored_at(view.committed, serial) {
        Some(seen) => keyed_of(alloc, view.schema, seen),
        None => Ok(Vec::new(alloc)),
    }
}

fn recorded(serial: u64, home: HomeNo, bytes: Bytes, pairs: Pairs) -> Change
    ensures put { result.put ≡ record { home = home.0; serial = serial; bytes = Some bytes } }
    ensures old_keys { result.old_keys ≡ pairs.had.items }
    ensures new_keys { result.new_keys ≡ pairs.has.items }
{
    Change {
        put: Put {
            home: home.0,
            serial,
            bytes: Some(bytes),
        },
        old_keys: KeyValues::from_vec(pairs.had),
        new_keys: KeyValues::from_vec(pairs.has),
    }
}
