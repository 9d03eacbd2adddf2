// An owner follows a member of which it is known to what it refers: no record is read.
ghost use Rattle.std.specs.Prelude.{◌≡◌, ◌++◌, ◌∷◌, [], Bool, Some, IfOk, IfSome, OnOk, if◌then◌else◌};
ghost use Rattle.std.specs.FinMap.{get};
ghost use Rattle.type_layout.specs.Schemas.{given};
ghost use Rattle.type_layout.specs.Types.{Ref};
ghost use Rattle.pss_catalog.specs.Catalog.{references, has};
ghost use Rattle.pss_machine.specs.Needs.{object_need, targets};
ghost use Rattle.pss_machine.specs.Operations.{Follow, Ask, Exists, IsThere, Found, Gone, Nil, plain_answer};
ghost use Rattle.pss_machine.specs.Owners.{Owner, view};
ghost use Rattle.owner_view.specs.Steps.{IsStep, with_reads};
ghost use Rattle.tx_session.specs.Owners.{owners_in, Under, MayAct};
ghost use Rattle.tx_session.specs.Following.{MayFollow};

use crate::parts::Parts;
use crate::table::find;
use owner_view::Step;
use pss_base::{NoMemory, OwnerNo, Pid};
use pss_machine::{Answer, Level, Mode, Need, Needs, Op, Resource};
use std::alloc::Global;
use storage_home::Homes;
use type_layout::Schema;

impl Parts {
    /// What it comes to for an owner to follow a member of an object, which refers to this one, or to none.
    pub fn step_led(
        &self,
        owner: OwnerNo,
        schema: &Schema,
        homes: &Homes,
        pid: Pid,
        to: Option<Pid>,
    ) -> Result<Step, NoMemory>
        requires may { MayFollow schema.now homes.now (owners_in self.now) owner pid to }
        requires under { Under schema.now self.now }
        ensures { IfOk result (λ step. (m : MayFollow schema.now homes.now (owners_in self.now) owner pid to) → IsStep schema.now m.act.sees.owner.level (view m.act.sees.catalog m.act.sees.owner) (Ask (Follow pid m.member)) step) }
    {
        let there = self.is_led(owner, schema, homes, to)?;
        let needs = needs_to_follow(self.alloc, self.level_of(owner), pid, to)?;
        Ok(Step {
            needs,
            answer: led(to, there),
            put: None,
        })
    }

    // Whether the owner sees the object, where there is one.
    fn is_led(
        &self,
        owner: OwnerNo,
        schema: &Schema,
        homes: &Homes,
        to: Option<Pid>,
    ) -> Result<bool, NoMemory>
        requires may { IfSome to (λ q. MayAct schema.now homes.now (owners_in self.now) owner (Ask (Exists q))) }
        requires under { Under schema.now self.now }
        ensures { IfOk result (λ there. IfSome to (λ q. (m : MayAct schema.now homes.now (owners_in self.now) owner (Ask (Exists q))) → there ≡ has (view m.sees.catalog m.sees.owner) q)) }
    {
        match to {
            Some(to) => self.sees(owner, schema, homes, to),
            None => Ok(false),
        }
    }

    // Whether the owner sees an object.
    fn sees(
        &self,
        owner: OwnerNo,
        schema: &Schema,
        homes: &Homes,
        pid: Pid,
    ) -> Result<bool, NoMemory>
        requires may { MayAct schema.now homes.now (owners_in self.now) owner (Ask (Exists pid)) }
        requires under { Under schema.now self.now }
        ensures { IfOk result (λ there. (m : MayAct schema.now homes.now (owners_in self.now) owner (Ask (Exists pid))) → there ≡ has (view m.sees.catalog m.sees.owner) pid) }
    {
        let step = self.step_of(owner, schema, homes, &Op::Exists { pid })?;
        Ok(is_true(&step.answer))
    }

    // The level of an owner that is there.
    fn level_of(&self, owner: OwnerNo) -> Level
        ensures { (o : Owner) → get (owners_in self.now) owner.0 ≡ Some o → result ≡ o.level }
    {
        match find(&self.table, owner) {
            Some(owned) => owned.level,
            None => Level::Basic,
        }
    }
}

fn is_true(answer: &Answer) -> bool
    ensures { (b : Bool) → plain_answer answer.now ≡ IsThere b → result ≡ b }
{
    match answer {
        Answer::Truth(b) => *b,
        _ => false,
    }
}

// The answer where a member refers to an object that is there or not, or to none.
fn led(to: Option<Pid>, there: bool) -> Answer
    ensures { plain_answer result ≡ given to Nil (λ q. if there then Found q else Gone q) }
{
    match to {
        Some(to) => if there {
            Answer::Found(to)
        } else {
            Answer::Gone(to)
        },
        None => Answer::Nil,
    }
}

// The object and the one that its member refers to are read.
fn needs_to_follow(
    alloc: Global,
    level: Level,
    pid: Pid,
    to: Option<Pid>,
) -> Result<Needs, NoMemory>
    ensures { IfOk result (λ needs. needs ≡ with_reads level [] (object_need Mode.S pid.serial ∷ targets (references (Ref to)))) }
{
    match level {
        Level::Serializable => reads(alloc, pid, to),
        Level::ReadCommitted => Ok(Needs::new(alloc)),
        Level::Basic => Ok(Needs::new(alloc)),
    }
}

fn reads(alloc: Global, pid: Pid, to: Option<Pid>) -> Result<Needs, NoMemory>
    ensures { IfOk result (λ needs. needs ≡ object_need Mode.S pid.serial ∷ targets (references (Ref to))) }
{
    let mut needs = Needs::new(alloc);
    need_to_read(&mut needs, pid)?;
    if let Some(to) = to {
        need_to_read(&mut needs, to)?;
    }
    Ok(needs)
}

fn need_to_read(needs: &mut Needs, pid: Pid) -> Result<(), NoMemory>
    ensures { OnOk result (needs.new ≡ needs.old ++ object_need Mode.S pid.serial ∷ []) }
{
    needs.push(Need {
        resource: Resource::Object(pid.serial),
        mode: Mode::S,
    })
}
