// One owner: what it changed, and what operations come to on what it sees.
ghost use Rattle.std.specs.Prelude.{◌≡◌, ◌+◌, ◌<◌, ◌^◌, min, IfOk, OnOk, if◌then◌else◌};
ghost use Rattle.std.specs.FinMap as map;
ghost use Rattle.std.specs.Option.{option_map};
ghost use Rattle.type_layout.specs.declared.schema.Schema.{Schema as PlainSchema};
ghost use Rattle.pss_catalog.specs.Catalog.{total};
ghost use Rattle.pss_catalog.specs.Changes.{over};
ghost use Rattle.pss_machine.specs.Operations.{plain_op};
ghost use Rattle.storage_home.specs.Applied.{AreChanges};
ghost use Rattle.owner_view.specs.Net.{net_of, AreNet};
ghost use Rattle.owner_view.specs.Owned.{changed_by, IsCounted, IsUnder, IsSame, IsReadyFor, MayPutIn, HasPut, MayLook, MayStep};
ghost use Rattle.owner_view.specs.States.{AreValued};
ghost use Rattle.owner_view.specs.Steps.{IsStep};
ghost use Rattle.owner_view.specs.Views.{seen_with};

use crate::net::net_changes;
use crate::overlay::Overlay;
use crate::state::state_at;
use crate::states::Told;
use crate::step::{NewState, Step};
use crate::view::View;
use crate::{operation, weight};
use pss_base::{NoMemory, Pid};
use pss_machine::{Level, Op};
use std::alloc::Global;
use storage_home::{Changes, Homes};
use type_layout::{Record, Schema};

/// An owner, which is a transaction or a basic session: its level, and what it changed (`changed_by`), by serial the state
/// that it gave an object last, or its removal.
///
/// The schema is the one given with the homes in each call; all must have been changed under it (`IsUnder`). What the owner
/// sees is what is committed with what it changed (`seen_with`).
#[derive(Drop)]
pub struct Owned {
    pub level: Level,
    overlay: Overlay,
    // How many objects were changed. The overlay may have reserved serials beside them.
    changed: u32,
}

impl Owned {
    /// An owner that has changed nothing. It takes no memory.
    pub fn new(alloc: Global, level: Level) -> Owned
        ensures level { result.level ≡ level }
        ensures changes { changed_by result ≡ map.empty }
        ensures counted { IsCounted result }
        ensures under { (S : PlainSchema) → IsUnder S result }
    {
        Owned {
            level,
            overlay: Overlay::new(alloc),
            changed: 0,
        }
    }

    /// Whether the object with a serial was changed, maybe back to what it was.
    pub fn has_changed(&self, serial: u64) -> bool
        ensures { result ≡ map.contains_key (changed_by self.now) serial }
    {
        match self.overlay.told(serial) {
            Told::Untouched => false,
            Told::Gone => true,
            Told::There(_) => true,
        }
    }

    /// How many objects were changed.
    pub fn changed_count(&self) -> u32
        requires { IsCounted self.now }
        ensures { result ≡ map.len (changed_by self.now) }
    {
        self.changed
    }

    /// The pids of the objects that have a value from the owner, also where it is the one that was committed: each
    /// once, in no stated order.
    ///
    /// `NoMemory`: there was no room for the list.
    pub fn valued_pids(&self) -> Result<Vec<Pid>, NoMemory>
        ensures { IfOk result (λ pids. AreValued (changed_by self.now) pids.items) }
    {
        self.overlay.pids()
    }

    /// What an operation comes to on what the owner sees: what it needs, what it answers, and what it changes.
    ///
    /// It takes time in what the operation touches and in the owner's changes, whatever is stored.
    ///
    /// `NoMemory`: there was no room for what it comes to.
    #[inline(always)]
    pub fn step_of(
        &self,
        alloc: Global,
        schema: &Schema,
        homes: &Homes,
        op: &Op,
    ) -> Result<Step, NoMemory>
        requires { MayStep schema.now homes.now self.now (plain_op op.now) }
        ensures { IfOk result (λ step. (m : MayStep schema.now homes.now self.now (plain_op op.now)) → IsStep schema.now self.now.level (seen_with m.look.catalog (changed_by self.now)) (plain_op op.now) step) }
    {
        let view = View {
            schema,
            committed: homes,
            overlay: &self.overlay,
        };
        operation::step_of(alloc, &view, self.level, op)
    }

    /// The record of the object with a serial as the owner sees it, where it sees one.
    ///
    /// `NoMemory`: there was no room for the record.
    pub fn state_of(
        &self,
        alloc: Global,
        schema: &Schema,
        homes: &Homes,
        serial: u64,
    ) -> Result<Option<Record>, NoMemory>
        requires { MayLook schema.now homes.now self.now }
        ensures { IfOk result (λ made. (m : MayLook schema.now homes.now self.now) → made ≡ option_map (λ object. object.values) (map.get (seen_with m.catalog (changed_by self.now)) serial)) }
    {
        let view = View {
            schema,
            committed: homes,
            overlay: &self.overlay,
        };
        state_at(alloc, &view, serial)
    }

    /// What a commit of the owner's changes has to make of the objects, by rising serials, with the keys that each had and has.
    /// An object that was set back to what it was committed as is not among them.
    ///
    /// `NoMemory`: there was no room for the list.
    pub fn changes(
        &self,
        alloc: Global,
        schema: &Schema,
        homes: &Homes,
    ) -> Result<Changes, NoMemory>
        requires { MayLook schema.now homes.now self.now }
        ensures net { IfOk result (λ changes. (m : MayLook schema.now homes.now self.now) → AreNet schema.now m.catalog (net_of m.catalog (changed_by self.now)) changes) }
        ensures wanted { IfOk result (λ changes. (m : MayLook schema.now homes.now self.now) → AreChanges schema.now m.catalog changes (net_of m.catalog (changed_by self.now))) }
    {
        let view = View {
            schema,
            committed: homes,
            overlay: &self.overlay,
        };
        net_changes(alloc, &view)
    }

    /// What all objects would weigh together, each 16 and the octets of its record, if what the owner changed were committed, or
    /// 2^64 where that is not more. It takes no memory.
    pub fn total_with(&self, schema: &Schema, homes: &Homes) -> u128
        requires look { MayLook schema.now homes.now self.now }
        requires under { IsUnder schema.now self.now }
        ensures { (m : MayLook schema.now homes.now self.now) → result ≡ min (total schema.now (over m.catalog (net_of m.catalog (changed_by self.now)))) (2 ^ 64) }
    {
        let view = View {
            schema,
            committed: homes,
            overlay: &self.overlay,
        };
        weight::total_with(&view)
    }

    /// Sees to it that what a step puts may be put without memory. Nothing that is told of the owner changes, not even where
    /// memory lacks.
    #[inline(always)]
    pub fn reserve(&mut self, put: &Option<NewState>) -> Result<(), NoMemory>
        ensures same { IsSame self.old self.new }
        ensures ready { OnOk result (IsReadyFor put.now self.new) }
    {
        match put {
            Some(put) => self.overlay.reserve(put.serial, &put.pairs.has),
            None => Ok(()),
        }
    }

    /// Puts what a step puts. It takes no memory.
    #[inline(always)]
    pub fn put(&mut self, put: NewState)
        requires { MayPutIn self.old put }
        ensures { HasPut self.old self.new put }
    {
        let NewState {
            serial,
            slot,
            pairs,
        } = put;
        let before = self
            .overlay
            .put_reserved(serial, slot, &pairs.had, &pairs.has);
        self.changed = count_with(self.changed, before);
    }

    /// Takes all that was changed away. It takes no memory, and may keep a little for what is changed next.
    pub fn clear(&mut self)
        ensures level { self.new.level ≡ self.old.level }
        ensures changes { changed_by self.new ≡ map.empty }
        ensures counted { IsCounted self.new }
        ensures under { (S : PlainSchema) → IsUnder S self.new }
    {
        self.overlay.clear();
        self.changed = 0;
    }
}

// How many objects are changed with one more, unless it was changed before.
fn count_with(changed: u32, before: bool) -> u32
    requires { changed < 4294967295 }
    ensures { result ≡ (if before then changed else changed + 1) }
{
    if before { changed } else { changed + 1 }
}
