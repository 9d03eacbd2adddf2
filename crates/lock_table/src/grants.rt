// Locks come in: copies and rings first, where memory may lack, and then the nodes.
ghost use Rattle.std.specs.Prelude.{◌≡◌, ◌+◌, ◌-◌, ◌^◌, ◌≤◌, ◌<◌, ◌++◌, ◌∷◌, [], List, length, map, min, false, Some, None, IsSome, IfOk, OnOk, OnErr, IfSome, IfNone, Contains};
ghost use Rattle.pss_machine.specs.declared.lock.Resource.{Resource};
ghost use Rattle.pss_base.specs.declared.owner.OwnerNo.{OwnerNo};
ghost use Rattle.lock_table.specs.declared.links.Lock.{Lock};
ghost use Rattle.std.specs.FinSet as set;
ghost use Rattle.lock_table.specs.Locks.{held_by, granted};
ghost use Rattle.lock_table.specs.Standing.{lock_of, need_of};
ghost use Rattle.lock_table.specs.inner.Nodes.{held_in, with_lock, with_all, missing};
ghost use Rattle.lock_table.specs.inner.Links.{IsLinked, IsReady, IsWhole, HaveRings, Grows, SameNodes, IsFound, IsLookedUp, IsFirst, IsCrossing, IsMissing, Recounts, LinksOne, EmptyRows, EmptyCols, resources, owners, place_at, col_at};

use crate::asks::{is_held, is_held_at, look_up};
use crate::copies::{copy, lock_for};
use crate::links::{Links, Lock};
use crate::places::{self, FoundPlace, Place};
use crate::rings::{drop_empty_column, drop_empty_place};
use crate::tables;
use link_pool::Col;
use pss_base::{NoMemory, OwnerNo};
use pss_machine::{Need, Resource};
use std::slice;

/// Something that an owner needs and has not locked yet.
#[derive(Clone, Copy, Drop)]
struct Missing<'a> {
    need: &'a Need,
    /// The needs behind it.
    behind: &'a [Need],
    /// What was found of its resource, which is not looked for again.
    found: Option<FoundPlace>,
}

/// Where a lock is linked: a row, whose resource was found, and a column.
#[derive(Clone, Copy, Drop)]
struct Crossing {
    found: FoundPlace,
    col: Col,
}

// Puts a copy last.
fn push_lock(locks: &mut Vec<Lock>, owner: OwnerNo, need: &Need) -> Result<(), NoMemory>
    ensures { OnOk result (locks.new.items ≡ locks.old.items ++ lock_of owner need.now ∷ []) }
{
    locks.push(lock_for(owner, need)?)?;
    Ok(())
}

// The first need for which an owner has no lock yet.
fn first_missing<'a>(links: &Links, owner: OwnerNo, needs: &'a [Need]) -> Option<Missing<'a>>
    requires { IsLinked links.now }
    ensures some { IfSome result (λ first. missing (held_in links.now.pool) owner needs.now ≡ first.need.now ∷ missing (held_in links.now.pool) owner first.behind.now) }
    ensures missing { IfSome result (λ first. IsMissing links.now owner first.need.now first.found) }
    ensures none { IfNone result (missing (held_in links.now.pool) owner needs.now ≡ []) }
{
    let mut left = needs;
    while let Some((need, behind)) = left.split_first() {
        let found = look_up(links, &need.resource);
        if !is_held(links, owner, need, found) {
            return Some(Missing {
                need,
                behind,
                found,
            });
        }
        left = behind;
    }
    None
}

// The locks for two needs, known to be missing, and for those behind the second that are, as often as they are needed.
fn missing_locks(
    links: &Links,
    owner: OwnerNo,
    first: &Missing<'_>,
    second: &Missing<'_>,
) -> Result<Vec<Lock>, NoMemory>
    requires { IsLinked links.now }
    ensures { IfOk result (λ locks. locks.items ≡ map (lock_of owner) (first.now.need.now ∷ second.now.need.now ∷ missing (held_in links.now.pool) owner second.now.behind.now)) }
{
    let mut locks = Vec::with_capacity(links.alloc, 2)?;
    push_lock(&mut locks, owner, first.need)?;
    push_lock(&mut locks, owner, second.need)?;
    for need in second.behind {
        if !is_held(links, owner, need, look_up(links, &need.resource)) {
            push_lock(&mut locks, owner, need)?;
        }
    }
    Ok(locks)
}

// Adds an empty row for a resource that has none, and answers where it stands.
#[inline(always)]
fn add_place(links: &mut Links, resource: Resource) -> Result<FoundPlace, NoMemory>
    requires { place_at links.old resource ≡ None }
    ensures grows { Grows links.old links.new }
    ensures ready { (locks : List Lock) → Contains (resources locks) resource → IsReady links.old locks → IsReady links.new locks }
    ensures ok { IfOk result (λ found. IsFound links.new resource found) }
{
    places::reserve(&mut links.places)?;
    let row = links.pool.add_row()?;
    let place = Place { row, locks: 0 };
    let at = places::put(&mut links.places, resource, place);
    Ok(FoundPlace { at, place })
}

// Adds an empty column for an owner that has none.
fn add_column(links: &mut Links, owner: OwnerNo) -> Result<Col, NoMemory>
    requires { col_at links.old owner ≡ None }
    ensures grows { Grows links.old links.new }
    ensures places { links.new.places.table.entries ≡ links.old.places.table.entries }
    ensures ready { (locks : List Lock) → Contains (owners locks) owner → IsReady links.old locks → IsReady links.new locks }
    ensures ok { IfOk result (λ col. col_at links.new owner ≡ Some col) }
{
    tables::reserve(&mut links.columns)?;
    let col = links.pool.add_col()?;
    tables::put(&mut links.columns, owner, col);
    Ok(col)
}

// Sees to it that a resource has a row, where this was found of it, and answers where it stands.
#[inline(always)]
fn make_place(
    links: &mut Links,
    resource: &Resource,
    found: Option<FoundPlace>,
) -> Result<FoundPlace, NoMemory>
    requires { IsLookedUp links.old resource.now found }
    ensures grows { Grows links.old links.new }
    ensures ready { (locks : List Lock) → Contains (resources locks) resource.now → IsReady links.old locks → IsReady links.new locks }
    ensures ok { IfOk result (λ found. IsFound links.new resource.now found) }
{
    match found {
        Some(found) => Ok(found),
        None => add_place(links, copy(resource)?),
    }
}

// Sees to it that an owner has a column.
#[inline(always)]
fn make_column(links: &mut Links, owner: OwnerNo) -> Result<Col, NoMemory>
    ensures grows { Grows links.old links.new }
    ensures places { links.new.places.table.entries ≡ links.old.places.table.entries }
    ensures ready { (locks : List Lock) → Contains (owners locks) owner → IsReady links.old locks → IsReady links.new locks }
    ensures ok { IfOk result (λ col. col_at links.new owner ≡ Some col) }
{
    match tables::find(&links.columns, &owner) {
        Some(col) => Ok(col),
        None => add_column(links, owner),
    }
}

// Sees to it that each lock has its row, where this was found of the first one's resource.
fn make_places(links: &mut Links, locks: &[Lock], found: Option<FoundPlace>) -> Result<(), NoMemory>
    requires ready { IsReady links.old locks.now }
    requires some { 0 < length locks.now }
    requires found { IsFirst links.old locks.now found }
    ensures grows { Grows links.old links.new }
    ensures ready { IsReady links.new locks.now }
    ensures ok { OnOk result ((lock : Lock) → Contains locks.now lock → IsSome (place_at links.new lock.resource)) }
{
    make_place(links, &locks[0].resource, found)?;
    for at in 1..locks.len() {
        let resource = &locks[at].resource;
        let found = look_up(links, resource);
        make_place(links, resource, found)?;
    }
    Ok(())
}

// Makes rings and room for locks of an owner, where this was found of the first one's resource, and answers the owner's column.
// Also without memory there may be empty rings.
fn make_rings(
    links: &mut Links,
    owner: OwnerNo,
    locks: &[Lock],
    found: Option<FoundPlace>,
) -> Result<Col, NoMemory>
    requires ready { IsReady links.old locks.now }
    requires own { (lock : Lock) → Contains locks.now lock → lock.owner ≡ owner }
    requires some { 0 < length locks.now }
    requires found { IsFirst links.old locks.now found }
    ensures nodes { SameNodes links.old links.new }
    ensures ready { IsReady links.new locks.now }
    ensures rings { IfOk result (λ col. HaveRings links.new col locks.now) }
    ensures room { OnOk result (length locks.now ≤ links.new.pool.room) }
{
    make_places(links, locks, found)?;
    let col = make_column(links, owner)?;
    links.pool.reserve(locks.len())?;
    Ok(col)
}

// Makes rings and room for a lock, where this was found of its resource. Also without memory there may be empty rings.
fn make_crossing(
    links: &mut Links,
    lock: &Lock,
    found: Option<FoundPlace>,
) -> Result<Crossing, NoMemory>
    requires whole { IsWhole links.old }
    requires found { IsLookedUp links.old lock.now.resource found }
    ensures nodes { SameNodes links.old links.new }
    ensures ready { IsReady links.new (lock.now ∷ []) }
    ensures crossing { IfOk result (λ at. IsCrossing links.new lock.now at) }
{
    let col = make_column(links, lock.owner)?;
    let found = make_place(links, &lock.resource, found)?;
    links.pool.reserve(1)?;
    Ok(Crossing { found, col })
}

// Takes the empty rings away that were made for locks of an owner.
fn drop_empty_rings(links: &mut Links, owner: OwnerNo, locks: &[Lock])
    requires ready { IsReady links.old locks.now }
    requires own { (lock : Lock) → Contains locks.now lock → lock.owner ≡ owner }
    ensures nodes { SameNodes links.old links.new }
    ensures whole { IsWhole links.new }
{
    drop_empty_places(links, locks);
    drop_empty_column(links, owner);
}

// Takes the empty rows away that were made for locks.
fn drop_empty_places(links: &mut Links, locks: &[Lock])
    requires linked { IsLinked links.old }
    requires rows { EmptyRows links.old (resources locks.now) }
    ensures nodes { SameNodes links.old links.new }
    ensures linked { IsLinked links.new }
    ensures rows { EmptyRows links.new [] }
    ensures cols { (keys : List OwnerNo) → EmptyCols links.old keys → EmptyCols links.new keys }
{
    for at in 0..locks.len() {
        drop_empty_place(links, &locks[at].resource);
    }
}

// Counts one lock more on the resource that was found.
fn count_up(links: &mut Links, found: FoundPlace)
    ensures { (resource : Resource) → IsFound links.old resource found → Recounts links.old links.new resource (λ n. min (n + 1) (2 ^ 64 - 1)) }
{
    let counted = Place {
        row: found.place.row,
        locks: found.place.locks.saturating_add(1),
    };
    places::write(&mut links.places, found.at, counted);
}

// Links a lock where its rings cross.
#[inline(always)]
fn insert(links: &mut Links, lock: Lock, at: Crossing)
    requires linked { IsLinked links.old }
    requires at { IsCrossing links.old lock at }
    requires new { set.contains (held_by (held_in links.old.pool) lock.owner) (need_of lock) ≡ false }
    ensures linked { IsLinked links.new }
    ensures links { LinksOne links.old links.new lock }
{
    count_up(links, at.found);
    let _ = links.pool.insert_reserved(at.found.place.row, at.col, lock);
    links.pool.rings_hold();
    links.held += 1;
}

// Links a lock in its rings, unless its owner has it.
fn link(links: &mut Links, col: Col, lock: Lock)
    requires linked { IsLinked links.old }
    requires place { IsSome (place_at links.old lock.resource) }
    requires col { col_at links.old lock.owner ≡ Some col }
    requires room { 0 < links.old.pool.room }
    ensures linked { IsLinked links.new }
    ensures links { LinksOne links.old links.new lock }
{
    match look_up(links, &lock.resource) {
        Some(found) => {
            if !is_held_at(links, found.place, lock.owner, lock.mode) {
                insert(links, lock, Crossing { found, col });
            }
        }
        None => unreachable!(),
    }
}

// Links locks in their rings, each where its owner has it not yet.
fn link_all(links: &mut Links, col: Col, locks: Vec<Lock>)
    requires ready { IsReady links.old locks.items }
    requires rings { HaveRings links.old col locks.items }
    requires room { length locks.items ≤ links.old.pool.room }
    ensures whole { IsWhole links.new }
    ensures held { held_in links.new.pool ≡ with_all locks.items (held_in links.old.pool) }
{
    let mut rest = locks;
    while let Some(lock) = rest.pop() {
        link(links, col, lock);
    }
}

// Locks one thing that an owner needs and has not locked.
//
// `NoMemory`: the locks are as before.
fn grant_one(links: &mut Links, owner: OwnerNo, only: &Missing<'_>) -> Result<(), NoMemory>
    requires whole { IsWhole links.old }
    requires missing { IsMissing links.old owner only.now.need.now only.now.found }
    ensures whole { IsWhole links.new }
    ensures ok { OnOk result (held_in links.new.pool ≡ with_lock (lock_of owner only.now.need.now) (held_in links.old.pool)) }
    ensures err { OnErr result (held_in links.new.pool ≡ held_in links.old.pool) }
{
    let lock = lock_for(owner, only.need)?;
    link_one(links, lock, only.found)
}

// Makes rings for a lock that its owner has not, where this was found of its resource, and links it there.
fn link_one(links: &mut Links, lock: Lock, found: Option<FoundPlace>) -> Result<(), NoMemory>
    requires whole { IsWhole links.old }
    requires missing { IsMissing links.old lock.owner (need_of lock) found }
    ensures whole { IsWhole links.new }
    ensures ok { OnOk result (held_in links.new.pool ≡ with_lock lock (held_in links.old.pool)) }
    ensures err { OnErr result (held_in links.new.pool ≡ held_in links.old.pool) }
{
    match make_crossing(links, &lock, found) {
        Ok(at) => {
            insert(links, lock, at);
            Ok(())
        }
        Err(NoMemory) => {
            drop_empty_rings(links, lock.owner, slice::from_ref(&lock));
            Err(NoMemory)
        }
    }
}

// Locks two things that an owner needs and has not locked, and what it has not locked of those behind the second.
//
// `NoMemory`: the locks are as before.
fn grant_all(
    links: &mut Links,
    owner: OwnerNo,
    first: &Missing<'_>,
    second: &Missing<'_>,
) -> Result<(), NoMemory>
    requires whole { IsWhole links.old }
    requires first { IsMissing links.old owner first.now.need.now first.now.found }
    ensures whole { IsWhole links.new }
    ensures ok { OnOk result (held_in links.new.pool ≡ with_all (map (lock_of owner) (first.now.need.now ∷ second.now.need.now ∷ missing (held_in links.old.pool) owner second.now.behind.now)) (held_in links.old.pool)) }
    ensures err { OnErr result (held_in links.new.pool ≡ held_in links.old.pool) }
{
    let locks = missing_locks(links, owner, first, second)?;
    match make_rings(links, owner, &locks, first.found) {
        Ok(col) => {
            link_all(links, col, locks);
            Ok(())
        }
        Err(NoMemory) => {
            drop_empty_rings(links, owner, &locks);
            Err(NoMemory)
        }
    }
}

/// Locks what an owner needs and has not locked yet: nothing or one thing nearly always, which takes no list.
///
/// `NoMemory`: the locks are as before.
pub fn grant(links: &mut Links, owner: OwnerNo, needs: &[Need]) -> Result<(), NoMemory>
    requires { IsWhole links.old }
    ensures whole { IsWhole links.new }
    ensures ok { OnOk result (held_in links.new.pool ≡ granted (held_in links.old.pool) owner needs.now) }
    ensures err { OnErr result (held_in links.new.pool ≡ held_in links.old.pool) }
{
    match first_missing(links, owner, needs) {
        Some(first) => match first_missing(links, owner, first.behind) {
            Some(second) => grant_all(links, owner, &first, &second),
            None => grant_one(links, owner, &first),
        },
        None => Ok(()),
    }
}
