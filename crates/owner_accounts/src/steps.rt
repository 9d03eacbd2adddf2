// The steps of owners.
ghost use Rattle.std.specs.Prelude.{◌≡◌, ◌↔◌, Some, None, IsSome, IfOk, OnOk};
ghost use Rattle.type_layout.specs.declared.schema.Schema.{Schema as PlainSchema};
ghost use Rattle.pss_base.specs.declared.owner.OwnerNo.{OwnerNo as Number};
ghost use Rattle.pss_base.specs.declared.session.SessionNo.{SessionNo};
ghost use Rattle.pss_machine.specs.declared.answer.Answer.TheVariants as told;
ghost use Rattle.pss_machine.specs.Operations.{Ask, Question, PlainAnswer, plain_op, plain_answer};
ghost use Rattle.pss_machine.specs.Owners.{blocker};
ghost use Rattle.pss_machine.specs.Asking.{Asked};
ghost use Rattle.pss_machine.specs.Stepping.{step_on_copy};
ghost use Rattle.pss_machine.specs.Moving.{after_step, next_after as machine_next};
ghost use Rattle.owner_accounts.specs.Accounts.{AreAccounts};
ghost use Rattle.owner_accounts.specs.Steps.{MayStep, MayFollow, MayCount, HasSerial, busy_by, step_in};

use crate::accounts::Accounts;
use pss_base::{NoMemory, OwnerNo, Pid};
use pss_machine::{Answer, Op};
use type_layout::Schema;

impl Accounts {
    /// What an operation comes to for an owner. `Busy` names the least other owner with a lock that clashes with what is
    /// needed; then nothing has changed. Else the owner has taken the step of the operation on what it sees, which counts
    /// as a command, and a create has used its serial.
    ///
    /// `NoMemory`: nothing is said of the accounts, which are not used again.
    #[inline(always)]
    pub fn act(&mut self, owner: OwnerNo, schema: &Schema, op: &Op) -> Result<Answer, NoMemory>
        requires { MayStep schema.now self.old owner (plain_op op.now) }
        ensures busy { IfOk result (λ answer. (m : MayStep schema.now self.old owner (plain_op op.now)) (n : Number) → (answer ≡ told.Busy n) ↔ (blocker m.by.kept.owners owner (step_in m).needs ≡ Some n)) }
        ensures held_up { OnOk result ((m : MayStep schema.now self.old owner (plain_op op.now)) → IsSome (blocker m.by.kept.owners owner (step_in m).needs) → AreAccounts schema.now self.new m.by.kept) }
        ensures answer { IfOk result (λ answer. (m : MayStep schema.now self.old owner (plain_op op.now)) → blocker m.by.kept.owners owner (step_in m).needs ≡ None → plain_answer answer ≡ (step_in m).answer) }
        ensures stepped { OnOk result ((m : MayStep schema.now self.old owner (plain_op op.now)) (s : SessionNo) (asked : Asked) → blocker m.by.kept.owners owner (step_in m).needs ≡ None → AreAccounts schema.now self.new (after_step m.by.kept owner s (step_in m) asked)) }
    {
        let answer = self.owners.act(owner, schema, &self.homes, op)?;
        if let Some(_) = busy_by(&answer) {
            return Ok(answer);
        }
        self.next = next_after(self.next, op);
        self.titles.count(owner);
        Ok(answer)
    }

    /// Follows a member of an object, which in what the owner sees refers to this one, or to none. It comes to what `act`
    /// comes to, but reads no record.
    ///
    /// `NoMemory`: nothing is said of the accounts, which are not used again.
    pub fn follow(
        &mut self,
        owner: OwnerNo,
        schema: &Schema,
        pid: Pid,
        to: Option<Pid>,
    ) -> Result<Answer, NoMemory>
        requires { MayFollow schema.now self.old owner pid to }
        ensures busy { IfOk result (λ answer. (m : MayFollow schema.now self.old owner pid to) (n : Number) → (answer ≡ told.Busy n) ↔ (blocker m.step.by.kept.owners owner (step_in m.step).needs ≡ Some n)) }
        ensures held_up { OnOk result ((m : MayFollow schema.now self.old owner pid to) → IsSome (blocker m.step.by.kept.owners owner (step_in m.step).needs) → AreAccounts schema.now self.new m.step.by.kept) }
        ensures answer { IfOk result (λ answer. (m : MayFollow schema.now self.old owner pid to) → blocker m.step.by.kept.owners owner (step_in m.step).needs ≡ None → plain_answer answer ≡ (step_in m.step).answer) }
        ensures stepped { OnOk result ((m : MayFollow schema.now self.old owner pid to) (s : SessionNo) (asked : Asked) → blocker m.step.by.kept.owners owner (step_in m.step).needs ≡ None → AreAccounts schema.now self.new (after_step m.step.by.kept owner s (step_in m.step) asked)) }
    {
        let answer = self.owners.follow(owner, schema, &self.homes, pid, to)?;
        if let Some(_) = busy_by(&answer) {
            return Ok(answer);
        }
        self.titles.count(owner);
        Ok(answer)
    }
}

impl Accounts {
    /// A command of a basic session's owner was answered by a copy: it counts as one, and nothing is locked or changed.
    pub fn count(&mut self, owner: OwnerNo)
        requires { (S : PlainSchema) × MayCount S self.old owner }
        ensures { (S : PlainSchema) (m : MayCount S self.old owner) (s : SessionNo) (question : Question) (answer : PlainAnswer) (asked : Asked) → AreAccounts S self.new (after_step m.by.kept owner s (step_on_copy (Ask question) answer) asked) }
    {
        self.titles.count(owner);
    }
}

// The owner that an operation was held up by.
fn busy_by(answer: &Answer) -> Option<OwnerNo>
    ensures { result ≡ busy_by answer.now }
{
    match answer {
        Answer::Busy(other) => Some(*other),
        _ => None,
    }
}

// The serial that the next object takes after an operation.
fn next_after(next: u64, op: &Op) -> u64
    requires { HasSerial next (plain_op op.now) }
    ensures { result ≡ machine_next next (plain_op op.now) }
{
    match op {
        Op::Create { .. } => next + 1,
        _ => next,
    }
}
