// An owner acts: the step of an operation on its view, room for it, and what becomes of locks and changes.
ghost use Rattle.std.specs.Prelude.{◌≡◌, Some, None, IsSome, IfOk, OnOk, OnErr};
ghost use Rattle.type_layout.specs.declared.schema.Schema.{Schema as PlainSchema};
ghost use Rattle.pss_machine.specs.Maps.{with_at};
ghost use Rattle.pss_machine.specs.Operations.{plain_op};
ghost use Rattle.pss_machine.specs.Owners.{view};
ghost use Rattle.lock_table.specs.Locks.{blocker, granted};
ghost use Rattle.owner_view.specs.Steps.{IsStep};
ghost use Rattle.owner_view.specs.declared.owned.Owned.{Owned as One};
ghost use Rattle.owner_view.specs.Owned.{IsSame, IsReadyFor};
ghost use Rattle.tx_session.specs.Kept.{owned_at, TurnsBy};
ghost use Rattle.tx_session.specs.Owners.{owners_in, Under, AreOwners, MayAct};
ghost use Rattle.tx_session.specs.Acting.{MayTake, MayChange, MaySettle, HasSettled, HasTaken, with_step};

use crate::parts::Parts;
use crate::table::{Table, find};
use lock_table::LockTable;
use owner_view::{Owned, Step};
use pss_base::{NoMemory, OwnerNo};
use pss_machine::{Answer, Op};
use storage_home::Homes;
use type_layout::Schema;

impl Parts {
    /// What an operation comes to on an owner's view.
    #[inline(always)]
    pub fn step_of(
        &self,
        owner: OwnerNo,
        schema: &Schema,
        homes: &Homes,
        op: &Op,
    ) -> Result<Step, NoMemory>
        requires may { MayAct schema.now homes.now (owners_in self.now) owner (plain_op op.now) }
        requires under { Under schema.now self.now }
        ensures { IfOk result (λ step. (m : MayAct schema.now homes.now (owners_in self.now) owner (plain_op op.now)) → IsStep schema.now m.sees.owner.level (view m.sees.catalog m.sees.owner) (plain_op op.now) step) }
    {
        match find(&self.table, owner) {
            Some(owned) => owned.step_of(self.alloc, schema, homes, op),
            None => unreachable!(),
        }
    }

    /// Takes a step that nobody holds up.
    ///
    /// `NoMemory`: what owners have locked and changed is as before.
    #[inline(always)]
    pub fn take(&mut self, owner: OwnerNo, step: Step) -> Result<Answer, NoMemory>
        requires may { (S : PlainSchema) × MayTake S self.old owner step }
        requires free { blocker self.old.locks owner step.needs ≡ None }
        ensures answer { IfOk result (λ answer. answer ≡ step.answer) }
        ensures stepped { OnOk result (owners_in self.new ≡ with_at (owners_in self.old) owner.0 (with_step step)) }
        ensures err { OnErr result (owners_in self.new ≡ owners_in self.old) }
        ensures under { (S : PlainSchema) → MayTake S self.old owner step → Under S self.new }
        ensures owners { AreOwners self.new }
    {
        take_in(&mut self.table, &mut self.locks, owner, step)
    }
}

// The owner is looked up once.
#[inline(always)]
fn take_in(
    table: &mut Table,
    locks: &mut LockTable,
    owner: OwnerNo,
    step: Step,
) -> Result<Answer, NoMemory>
    requires there { IsSome (owned_at owner.0 table.old) }
    requires may { (owned : One) → owned_at owner.0 table.old ≡ Some owned → MayChange owned step.put }
    requires free { blocker locks.old owner step.needs ≡ None }
    ensures answer { IfOk result (λ answer. answer ≡ step.answer) }
    ensures turned { TurnsBy (HasTaken result step.put) table.old table.new owner.0 }
    ensures granted { OnOk result (locks.new ≡ granted locks.old owner step.needs) }
    ensures err { OnErr result (locks.new ≡ locks.old) }
{
    match table.get_mut(owner) {
        Some(owned) => take_with(owned, locks, owner, step),
        None => unreachable!(),
    }
}

#[inline(always)]
fn take_with(
    owned: &mut Owned,
    locks: &mut LockTable,
    owner: OwnerNo,
    step: Step,
) -> Result<Answer, NoMemory>
    requires may { MayChange owned.old step.put }
    requires free { blocker locks.old owner step.needs ≡ None }
    ensures answer { IfOk result (λ answer. answer ≡ step.answer) }
    ensures turned { HasTaken result step.put owned.old owned.new }
    ensures granted { OnOk result (locks.new ≡ granted locks.old owner step.needs) }
    ensures err { OnErr result (locks.new ≡ locks.old) }
{
    match prepare(owned, locks, owner, &step) {
        Ok(()) => Ok(settle(owned, step)),
        Err(NoMemory) => Err(NoMemory),
    }
}

// Room for what a step puts, and the locks that it needs.
#[inline(always)]
fn prepare(
    owned: &mut Owned,
    locks: &mut LockTable,
    owner: OwnerNo,
    step: &Step,
) -> Result<(), NoMemory>
    requires free { blocker locks.old owner step.now.needs ≡ None }
    ensures same { IsSame owned.old owned.new }
    ensures ready { OnOk result (IsReadyFor step.now.put owned.new) }
    ensures granted { OnOk result (locks.new ≡ granted locks.old owner step.now.needs) }
    ensures err { OnErr result (locks.new ≡ locks.old) }
{
    owned.reserve(&step.put)?;
    locks.grant(owner, &step.needs)
}

// Puts what a step puts, for which there is room.
#[inline(always)]
fn settle(owned: &mut Owned, step: Step) -> Answer
    requires { MaySettle owned.old step.put }
    ensures answer { result ≡ step.answer }
    ensures put { HasSettled owned.old owned.new step.put }
{
    let Step { answer, put, .. } = step;
    if let Some(put) = put {
        owned.put(put);
    }
    answer
}
