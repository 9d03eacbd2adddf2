// What is answered for an object that is not there.
ghost use Rattle.std.specs.Prelude.{◌≡◌, ◌∷◌, [], IfOk, OnOk};
ghost use Rattle.pss_machine.specs.Needs.{object_need, targets};
ghost use Rattle.owner_view.specs.Steps.{with_reads, IsGone};

use crate::needs::{need_object, need_reads};
use crate::step::Step;
use pss_base::{NoMemory, Pid};
use pss_machine::{Answer, Level, Mode, Needs};
use std::alloc::Global;

/// The step of an operation that would write an object which is not there, with the objects to which a
/// new value refers.
pub fn step_of_gone(
    alloc: Global,
    level: Level,
    pid: Pid,
    references: &[Pid],
) -> Result<Step, NoMemory>
    ensures { IfOk result (λ step. IsGone level pid references.now step) }
{
    let mut needs = Needs::new(alloc);
    need_gone(&mut needs, level, pid, references)?;
    Ok(Step {
        needs,
        answer: Answer::Gone(pid),
        put: None,
    })
}

fn need_gone(needs: &mut Needs, level: Level, pid: Pid, references: &[Pid]) -> Result<(), NoMemory>
    requires { needs.old ≡ [] }
    ensures { OnOk result (needs.new ≡ with_reads level (object_need Mode.X pid.serial ∷ []) (targets references.now)) }
{
    need_object(needs, Mode::X, pid.serial)?;
    need_reads(needs, level, references)
}
