// Questions about objects, which change nothing.
ghost use Rattle.std.specs.Prelude.{◌≡◌, ◌<◌, ◌∷◌, [], None, IsSome, IfOk, length, if◌then◌else◌};
ghost use Rattle.std.specs.FinMap as map;
ghost use Rattle.std.specs.Option.{option_map};
ghost use Rattle.type_layout.specs.Schemas.{home_at, members_at};
ghost use Rattle.pss_catalog.specs.Families.{WithBases};
ghost use Rattle.pss_machine.specs.Homes.{in_one_family};
ghost use Rattle.pss_machine.specs.Operations.{FindKey, FindPid, FindShort, Exists, Get, Ask, Found, NotFound, plain_answer};
ghost use Rattle.pss_machine.specs.Alone.{pid_at as pid_in, told};
ghost use Rattle.pss_machine.specs.Needs.{key_need, targets};
ghost use Rattle.owner_view.specs.Overlay.{changes_in};
ghost use Rattle.owner_view.specs.Views.{seen_with};
ghost use Rattle.owner_view.specs.Stored.{Sees};
ghost use Rattle.owner_view.specs.Steps.{IsStep, with_reads};
ghost use Rattle.owner_view.specs.Asking.{found_below};

use crate::committed::Committed;
use crate::needs::{need_key, need_reads};
use crate::seen::{home_of, member_of};
use crate::step::Step;
use crate::view::{View, has, holder, is_below, object_at, object_of};
use pss_base::{Bytes, NoMemory, Pid};
use pss_catalog::Families;
use pss_machine::{Answer, Level, Mode, Needs};
use std::alloc::Global;
use type_layout::{HomeNo, KeyNo};

/// Whether an object is there.
pub fn exists<C: Committed>(
    alloc: Global,
    view: &View<'_, C>,
    level: Level,
    pid: Pid,
) -> Result<Step, NoMemory>
    requires { Sees C.shows view.now }
    ensures { IfOk result (λ step. (v : Sees C.shows view.now) → IsStep view.now.schema.now level (seen_with v.catalog (changes_in view.now.overlay.now)) (Ask (Exists pid)) step) }
{
    let needs = needs_to_read(alloc, level, &[pid])?;
    Ok(answered(needs, Answer::Truth(has(view, pid))))
}

/// The object of an identifier, whose home may be any.
pub fn find_pid<C: Committed>(
    alloc: Global,
    view: &View<'_, C>,
    level: Level,
    pid: Pid,
) -> Result<Step, NoMemory>
    requires { Sees C.shows view.now }
    ensures { IfOk result (λ step. (v : Sees C.shows view.now) → IsStep view.now.schema.now level (seen_with v.catalog (changes_in view.now.overlay.now)) (Ask (FindPid pid)) step) }
{
    let needs = needs_to_read(alloc, level, &[pid])?;
    Ok(answered(needs, found_where(has(view, pid), pid)))
}

/// The object with a serial, where it is of the family of a home.
pub fn find_short<C: Committed>(
    alloc: Global,
    view: &View<'_, C>,
    level: Level,
    home: HomeNo,
    serial: u64,
) -> Result<Step, NoMemory>
    requires { Sees C.shows view.now }
    ensures { IfOk result (λ step. (v : Sees C.shows view.now) → IsStep view.now.schema.now level (seen_with v.catalog (changes_in view.now.overlay.now)) (Ask (FindShort home serial)) step) }
{
    let pid = Pid {
        home: home.0,
        serial,
    };
    let needs = needs_to_read(alloc, level, &[pid])?;
    Ok(answered(needs, of_family(view, home, serial)))
}

// The object with a serial, where it is of the home's family.
fn of_family<C: Committed>(view: &View<'_, C>, home: HomeNo, serial: u64) -> Answer
    requires { Sees C.shows view.now }
    ensures { (v : Sees C.shows view.now) → plain_answer result ≡ told view.now.schema.now (seen_with v.catalog (changes_in view.now.overlay.now)) (FindShort home serial) }
{
    match object_at(view, serial) {
        Some(seen) => kin(view, serial, home_of(seen), home),
        None => Answer::NotFound,
    }
}

// The object with a serial and a home, where this is of the family of another home.
fn kin<C: Committed>(view: &View<'_, C>, serial: u64, home: HomeNo, of: HomeNo) -> Answer
    requires sees { Sees C.shows view.now }
    requires there { IsSome (home_at view.now.schema.now home) }
    ensures { plain_answer result ≡ (if in_one_family view.now.schema.now home of then Found (record { home = home.0; serial = serial }) else NotFound) }
{
    let pid = Pid {
        home: home.0,
        serial,
    };
    found_where(are_kin(view.committed.families(), home, of), pid)
}

// Whether a home that is there is of the family of another one.
fn are_kin(families: &Families, home: HomeNo, of: HomeNo) -> bool
    ensures { WithBases families.now (λ S. IsSome (home_at S home) → result ≡ in_one_family S home of) }
{
    families.root(home) == families.root(of)
}

/// The object of a home, or of one derived from it, that holds a key with these bytes.
pub fn find_key<C: Committed>(
    alloc: Global,
    view: &View<'_, C>,
    level: Level,
    home: HomeNo,
    key: KeyNo,
    bytes: &Bytes,
) -> Result<Step, NoMemory>
    requires { Sees C.shows view.now }
    ensures { IfOk result (λ step. (v : Sees C.shows view.now) → IsStep view.now.schema.now level (seen_with v.catalog (changes_in view.now.overlay.now)) (Ask (FindKey home key bytes.now)) step) }
{
    let needs = needs_of_key(alloc, level, key, bytes)?;
    Ok(answered(needs, keyed(view, home, key, bytes.as_slice())))
}

fn keyed<C: Committed>(view: &View<'_, C>, home: HomeNo, key: KeyNo, bytes: &[u8]) -> Answer
    requires { Sees C.shows view.now }
    ensures { (v : Sees C.shows view.now) → plain_answer result ≡ told view.now.schema.now (seen_with v.catalog (changes_in view.now.overlay.now)) (FindKey home key bytes.now) }
{
    match holder(view, key, bytes) {
        Some(serial) => of_home(view, home, serial),
        None => Answer::NotFound,
    }
}

// The object with a serial, where it is of the home or of one derived from it.
fn of_home<C: Committed>(view: &View<'_, C>, home: HomeNo, serial: u64) -> Answer
    requires { Sees C.shows view.now }
    ensures { (v : Sees C.shows view.now) → plain_answer result ≡ found_below view.now.schema.now home serial (map.get (seen_with v.catalog (changes_in view.now.overlay.now)) serial) }
{
    match pid_at(view, serial) {
        Some(pid) => found_where(is_below(view, HomeNo(pid.home), home), pid),
        None => Answer::NotFound,
    }
}

fn pid_at<C: Committed>(view: &View<'_, C>, serial: u64) -> Option<Pid>
    requires { Sees C.shows view.now }
    ensures { (v : Sees C.shows view.now) → result ≡ option_map (pid_in serial) (map.get (seen_with v.catalog (changes_in view.now.overlay.now)) serial) }
{
    match object_at(view, serial) {
        Some(seen) => Some(Pid {
            home: home_of(seen).0,
            serial,
        }),
        None => None,
    }
}

fn found_where(is: bool, pid: Pid) -> Answer
    ensures { plain_answer result ≡ (if is then Found pid else NotFound) }
{
    if is {
        Answer::Found(pid)
    } else {
        Answer::NotFound
    }
}

/// The value of a member.
pub fn get<C: Committed>(
    alloc: Global,
    view: &View<'_, C>,
    level: Level,
    pid: Pid,
    member: usize,
) -> Result<Step, NoMemory>
    requires sees { Sees C.shows view.now }
    requires there { member < length (members_at view.now.schema.now (record { 0 = pid.home })) }
    ensures { IfOk result (λ step. (v : Sees C.shows view.now) → IsStep view.now.schema.now level (seen_with v.catalog (changes_in view.now.overlay.now)) (Ask (Get pid member)) step) }
{
    let answer = member_told(alloc, view, pid, member)?;
    let needs = needs_to_read(alloc, level, &[pid])?;
    Ok(answered(needs, answer))
}

// The value of a member of an object, or that the object is not there.
fn member_told<C: Committed>(
    alloc: Global,
    view: &View<'_, C>,
    pid: Pid,
    member: usize,
) -> Result<Answer, NoMemory>
    requires sees { Sees C.shows view.now }
    requires there { member < length (members_at view.now.schema.now (record { 0 = pid.home })) }
    ensures { IfOk result (λ answer. (v : Sees C.shows view.now) → plain_answer answer ≡ told view.now.schema.now (seen_with v.catalog (changes_in view.now.overlay.now)) (Get pid member)) }
{
    match object_of(view, pid) {
        Some(seen) => Ok(Answer::Val(member_of(alloc, view.schema, seen, member)?)),
        None => Ok(Answer::Gone(pid)),
    }
}

/// What is needed to read objects.
pub fn needs_to_read(alloc: Global, level: Level, pids: &[Pid]) -> Result<Needs, NoMemory>
    ensures { IfOk result (λ needs. needs ≡ with_reads level [] (targets pids.now)) }
{
    let mut needs = Needs::new(alloc);
    need_reads(&mut needs, level, pids)?;
    Ok(needs)
}

fn needs_of_key(alloc: Global, level: Level, key: KeyNo, bytes: &Bytes) -> Result<Needs, NoMemory>
    ensures { IfOk result (λ needs. needs ≡ with_reads level [] (key_need Mode.S key bytes.now ∷ [])) }
{
    let mut needs = Needs::new(alloc);
    match level {
        Level::Serializable => need_key(&mut needs, Mode::S, key, bytes)?,
        Level::ReadCommitted => (),
        Level::Basic => (),
    }
    Ok(needs)
}

/// The step of a question.
pub fn answered(needs: Needs, answer: Answer) -> Step
    ensures { result ≡ record { needs = needs; answer = answer; put = None } }
{
    Step {
        needs,
        answer,
        put: None,
    }
}
