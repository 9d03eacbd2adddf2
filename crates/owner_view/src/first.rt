// The first objects of a home in a view. The order of the committed objects and that of the owner's changes are merged.
ghost use Rattle.std.specs.Prelude.{◌≡◌, ◌≤◌, ◌<◌, ◌+◌, ◌^◌, ◌++◌, ◌∷◌, [], take, length, Some, None, IfOk, OnOk, if◌then◌else◌};
ghost use Rattle.type_layout.specs.Schemas.{descends};
ghost use Rattle.std.specs.List.{prefix_len};
ghost use Rattle.std.specs.Option.{option_map, option_to_list};
ghost use Rattle.storage_home.specs.Kept.{is_of};
ghost use Rattle.pss_machine.specs.Changes.{listed};
ghost use Rattle.pss_machine.specs.Homes.{extent};
ghost use Rattle.owner_view.specs.Merging.{is_before, before, onward, past, passing_at, merged};
ghost use Rattle.owner_view.specs.Overlay.{changes_in};
ghost use Rattle.owner_view.specs.States.{told_state, AreInOrder};
ghost use Rattle.owner_view.specs.Stored.{Sees};
ghost use Rattle.owner_view.specs.Views.{seen_with};

use crate::committed::Committed;
use crate::states::Told;
use crate::view::{View, is_below};
use pss_base::{NoMemory, Pid, Pids};
use std::alloc::Global;
use type_layout::HomeNo;

/// The most objects that are listed.
const MOST: usize = 256;

/// The first 256 objects, by serial, of a home and of those derived from it.
pub fn first_in<C: Committed>(
    alloc: Global,
    view: &View<'_, C>,
    home: HomeNo,
) -> Result<Pids, NoMemory>
    requires { Sees C.shows view.now }
    ensures { IfOk result (λ pids. (v : Sees C.shows view.now) → pids ≡ take 256 (extent view.now.schema.now (seen_with v.catalog (changes_in view.now.overlay.now)) home)) }
{
    let serials = view.overlay.in_order()?;
    first_with(alloc, view, home, &serials)
}

// The same, with the serials of the changes.
fn first_with<C: Committed>(
    alloc: Global,
    view: &View<'_, C>,
    home: HomeNo,
    serials: &[u64],
) -> Result<Pids, NoMemory>
    requires sees { Sees C.shows view.now }
    requires few { length serials.now < 2 ^ 63 }
    requires order { AreInOrder view.now.overlay.now.states serials.now }
    ensures { IfOk result (λ pids. (v : Sees C.shows view.now) → pids ≡ take 256 (extent view.now.schema.now (seen_with v.catalog (changes_in view.now.overlay.now)) home)) }
{
    let asked = most_asked(serials.len())?;
    let committed = view.committed.first(home, asked)?;
    first_merged(alloc, view, home, serials, committed.as_slice())
}

// So many committed objects are enough, since each change takes one of them away at most. More than a `u32`
// of them would take 64 GiB: that is want of memory.
fn most_asked(changes: usize) -> Result<u32, NoMemory>
    requires { changes < 2 ^ 63 }
    ensures { IfOk result (λ most. most ≡ 256 + changes) }
{
    match u32::try_from(MOST + changes) {
        Ok(most) => Ok(most),
        Err(_) => Err(NoMemory),
    }
}

fn first_merged<C: Committed>(
    alloc: Global,
    view: &View<'_, C>,
    home: HomeNo,
    serials: &[u64],
    committed: &[Pid],
) -> Result<Pids, NoMemory>
    requires sees { Sees C.shows view.now }
    requires order { AreInOrder view.now.overlay.now.states serials.now }
    ensures { IfOk result (λ pids. pids ≡ take 256 (merged (is_of view.now.schema.now home) (listed (changes_in view.now.overlay.now)) committed.now)) }
{
    let mut pids = Pids::new(alloc);
    put_merged(&mut pids, view, home, serials, committed)?;
    Ok(pids)
}

fn put_merged<C: Committed>(
    pids: &mut Pids,
    view: &View<'_, C>,
    home: HomeNo,
    serials: &[u64],
    committed: &[Pid],
) -> Result<(), NoMemory>
    requires sees { Sees C.shows view.now }
    requires order { AreInOrder view.now.overlay.now.states serials.now }
    requires none { pids.old ≡ [] }
    ensures { OnOk result (pids.new ≡ take 256 (merged (is_of view.now.schema.now home) (listed (changes_in view.now.overlay.now)) committed.now)) }
{
    let mut rest = committed;
    for serial in serials {
        if let Some(own) = own_in(view, home, *serial, view.overlay.told(*serial)) {
            rest = put_change(pids, rest, *serial, own)?;
        }
    }
    put_all(pids, rest)
}

// What a change leaves at its serial: an object of the home, or none. There is no change where a place is
// reserved.
fn own_in<C: Committed>(
    view: &View<'_, C>,
    home: HomeNo,
    serial: u64,
    told: Told<'_>,
) -> Option<Option<Pid>>
    requires { Sees C.shows view.now }
    ensures { result ≡ option_map (passing_at (is_of view.now.schema.now home) serial) (told_state told.entry) }
{
    match told {
        Told::Untouched => None,
        Told::Gone => Some(None),
        Told::There(object) => Some(below(view, home, object.home, serial)),
    }
}

fn below<C: Committed>(view: &View<'_, C>, of: HomeNo, home: HomeNo, serial: u64) -> Option<Pid>
    requires { Sees C.shows view.now }
    ensures { result ≡ (if descends view.now.schema.now home of then Some (record { home = home.0; serial = serial }) else None) }
{
    if is_below(view, home, of) {
        Some(Pid {
            home: home.0,
            serial,
        })
    } else {
        None
    }
}

// Puts those in front of a serial and the changed object there, and gives those behind it.
fn put_change<'a>(
    pids: &mut Pids,
    rest: &'a [Pid],
    serial: u64,
    own: Option<Pid>,
) -> Result<&'a [Pid], NoMemory>
    requires { length pids.old ≤ 256 }
    ensures put { OnOk result (pids.new ≡ take 256 (pids.old ++ (before serial rest.now ++ option_to_list own))) }
    ensures left { IfOk result (λ left. left.now ≡ past serial (onward serial rest.now)) }
{
    let (front, back) = rest.split_at(count_before(rest, serial));
    put_all(pids, front)?;
    put_own(pids, own)?;
    Ok(behind(back, serial))
}

// How many of them are in front of a serial.
fn count_before(pids: &[Pid], serial: u64) -> usize
    ensures count { result ≡ prefix_len (is_before serial) pids.now }
    ensures within { result ≤ length pids.now }
{
    pids.iter().take_while(|pid| pid.serial < serial).count()
}

// Without the first, where it has this serial.
fn behind(pids: &[Pid], serial: u64) -> &[Pid]
    ensures { result.now ≡ past serial pids.now }
{
    match pids {
        [first, others @ ..] if first.serial == serial => others,
        _ => pids,
    }
}

// Puts these last, up to 256 in all.
fn put_all(pids: &mut Pids, more: &[Pid]) -> Result<(), NoMemory>
    requires { length pids.old ≤ 256 }
    ensures { OnOk result (pids.new ≡ take 256 (pids.old ++ more.now)) }
{
    for pid in more {
        put(pids, *pid)?;
    }
    Ok(())
}

fn put_own(pids: &mut Pids, own: Option<Pid>) -> Result<(), NoMemory>
    requires { length pids.old ≤ 256 }
    ensures { OnOk result (pids.new ≡ take 256 (pids.old ++ option_to_list own)) }
{
    match own {
        Some(pid) => put(pids, pid),
        None => Ok(()),
    }
}

fn put(pids: &mut Pids, pid: Pid) -> Result<(), NoMemory>
    requires { length pids.old ≤ 256 }
    ensures { OnOk result (pids.new ≡ take 256 (pids.old ++ pid ∷ [])) }
{
    if pids.as_slice().len() < MOST {
        pids.push(pid)?;
    }
    Ok(())
}
