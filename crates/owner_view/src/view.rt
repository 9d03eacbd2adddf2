// The catalog as an owner sees it: what it changed over what was committed.
ghost use Rattle.std.specs.Prelude.{◌≡◌, ◌==◌, Some, None, find, if◌then◌else◌};
ghost use Rattle.std.specs.Option.{option_map};
ghost use Rattle.type_layout.specs.declared.schema.Schema.{Schema};
ghost use Rattle.type_layout.specs.Schemas.{descends};
ghost use Rattle.pss_catalog.specs.Catalog.{Catalog, Object, has as has_in};
ghost use Rattle.pss_machine.specs.Alone.{first_gone as first_gone_in, object_of as object_in};
ghost use Rattle.owner_view.specs.Overlay.{changes_in};
ghost use Rattle.owner_view.specs.Views.{seen_with, IsHolder, holder_of, is_held_by_other};
ghost use Rattle.owner_view.specs.Stored.{Sees, Shows, IsSeenAt, IsSeenAs};
ghost use Rattle.owner_view.specs.Seen.{Fits, IsSeen};

use crate::committed::Committed;
use crate::overlay::Overlay;
use crate::seen::{Seen, home_of};
use crate::states::Told;
use pss_base::{Bytes, Pid};
use type_layout::{HomeNo, KeyNo, Schema};

/// An owner's view.
#[derive(Drop)]
pub struct View<'a, C> {
    pub schema: &'a Schema,
    pub committed: &'a C,
    pub overlay: &'a Overlay,
}

/// An object that a view has, with its serial.
#[derive(Clone, Copy, Drop)]
pub struct Found<'a> {
    pub serial: u64,
    pub seen: Seen<'a>,
}

/// The object with a serial, where the view has one.
#[inline(always)]
pub fn object_at<'a, C: Committed>(view: &View<'a, C>, serial: u64) -> Option<Seen<'a>>
    requires { Shows C.shows view.now }
    ensures { (v : Shows C.shows view.now) → IsSeenAt view.now.schema.now (seen_with v.catalog (changes_in view.now.overlay.now)) serial result }
{
    match view.overlay.told(serial) {
        Told::Untouched => stored_at(view.committed, serial),
        Told::Gone => None,
        Told::There(object) => Some(Seen::Own(object)),
    }
}

/// The object with a serial as it was committed, where there is one.
pub fn stored_at<C: Committed>(committed: &C, serial: u64) -> Option<Seen<'_>>
    ensures { (S : Schema) (M : Catalog) → C.shows committed.now S M → IsSeenAt S M serial result }
{
    match committed.object(serial) {
        Some((home, bytes)) => Some(Seen::Stored(home, bytes)),
        None => None,
    }
}

/// Whether the view has the object.
pub fn has<C: Committed>(view: &View<'_, C>, pid: Pid) -> bool
    requires { Sees C.shows view.now }
    ensures { (v : Sees C.shows view.now) → result ≡ has_in (seen_with v.catalog (changes_in view.now.overlay.now)) pid }
{
    match object_at(view, pid.serial) {
        Some(seen) => home_of(seen).0 == pid.home,
        None => false,
    }
}

/// The first of these objects that the view does not have.
#[inline(always)]
pub fn first_gone<C: Committed>(view: &View<'_, C>, pids: &[Pid]) -> Option<Pid>
    requires { Sees C.shows view.now }
    ensures { (v : Sees C.shows view.now) → result ≡ first_gone_in (seen_with v.catalog (changes_in view.now.overlay.now)) pids.now }
{
    for pid in pids {
        if !has(view, *pid) {
            return Some(*pid);
        }
    }
    None
}

/// The serial of the object that holds a key with these bytes in the view.
pub fn holder<C: Committed>(view: &View<'_, C>, key: KeyNo, bytes: &[u8]) -> Option<u64>
    requires { Sees C.shows view.now }
    ensures { (v : Sees C.shows view.now) → IsHolder view.now.schema.now (seen_with v.catalog (changes_in view.now.overlay.now)) key bytes.now result }
{
    match view.overlay.holder(key, bytes) {
        Some(serial) => Some(serial),
        None => unchanged(view, view.committed.holder(key, bytes)),
    }
}

// The holder that was committed, where the owner has not changed it.
fn unchanged<C>(view: &View<'_, C>, committed: Option<u64>) -> Option<u64>
    ensures { result ≡ holder_of (changes_in view.now.overlay.now) None committed }
{
    let serial = committed?;
    match view.overlay.told(serial) {
        Told::Untouched => Some(serial),
        Told::Gone => None,
        Told::There(_) => None,
    }
}

/// The first of these keys that another object than that with the serial holds in the view.
pub fn first_taken<C: Committed>(
    view: &View<'_, C>,
    serial: u64,
    pairs: &[(KeyNo, Bytes)],
) -> Option<KeyNo>
    requires { Sees C.shows view.now }
    ensures { (v : Sees C.shows view.now) → result ≡ option_map (λ p. p.0) (find (is_held_by_other view.now.schema.now (seen_with v.catalog (changes_in view.now.overlay.now)) serial) pairs.now) }
{
    for (key, bytes) in pairs {
        if is_taken(view, serial, *key, bytes.as_slice()) {
            return Some(*key);
        }
    }
    None
}

fn is_taken<C: Committed>(view: &View<'_, C>, serial: u64, key: KeyNo, bytes: &[u8]) -> bool
    requires { Sees C.shows view.now }
    ensures { (v : Sees C.shows view.now) → result ≡ is_held_by_other view.now.schema.now (seen_with v.catalog (changes_in view.now.overlay.now)) serial (key, bytes.now) }
{
    match holder(view, key, bytes) {
        Some(held) => held != serial,
        None => false,
    }
}

/// The object, where the view has it in the pid's home.
pub fn object_of<'a, C: Committed>(view: &View<'a, C>, pid: Pid) -> Option<Seen<'a>>
    requires { Sees C.shows view.now }
    ensures { (v : Sees C.shows view.now) → IsSeenAs view.now.schema.now (object_in (seen_with v.catalog (changes_in view.now.overlay.now)) pid) result }
{
    match object_at(view, pid.serial) {
        Some(seen) => of_home(seen, pid),
        None => None,
    }
}

fn of_home(seen: Seen<'_>, pid: Pid) -> Option<Seen<'_>>
    ensures { (S : Schema) (object : Object) → Fits S object → IsSeen S seen.entry object → IsSeenAs S (if object.home.0 == pid.home then Some object else None) result }
{
    if home_of(seen).0 == pid.home {
        Some(seen)
    } else {
        None
    }
}

/// Whether a home is another one or derives from it.
pub fn is_below<C: Committed>(view: &View<'_, C>, home: HomeNo, of: HomeNo) -> bool
    requires { Sees C.shows view.now }
    ensures { result ≡ descends view.now.schema.now home of }
{
    view.committed.families().is_heir(home, of)
}
