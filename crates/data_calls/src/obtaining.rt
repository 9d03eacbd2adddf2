// What entries do after a step: the named one, and that of what was found.
ghost use Rattle.std.specs.Prelude.{◌≡◌, IfOk, OnOk};
ghost use Rattle.pss_machine.specs.Operations.{plain_answer};
ghost use Rattle.pss_machine.specs.Moving.{is_done as machine_is_done};
ghost use Rattle.data_calls.specs.Ways.{MayObtain, MayName, MayFind, IsObtainedNow, IsNamedNow, IsFoundNow};

use crate::acting::Acting;
use crate::seating::seat;
use connector_parts::Parts;
use pss_base::{NoMemory, Pid};
use pss_machine::Answer;
use type_layout::Record;

// The operation did what it was asked for.
fn is_done(answer: &Answer) -> bool
    ensures { result ≡ machine_is_done (plain_answer answer.now) }
{
    match answer {
        Answer::Done => true,
        Answer::Found(_) => true,
        Answer::Val(_) => true,
        _ => false,
    }
}

/// The entry that a command names stands on a body, where the command did what it was asked for.
pub fn seat_named(
    parts: &mut Parts,
    acting: Acting,
    entry: Option<u32>,
    answer: &Answer,
) -> Result<(), NoMemory>
    requires { MayName parts.old acting entry (plain_answer answer.now) }
    ensures { OnOk result ((m : MayName parts.old acting entry (plain_answer answer.now)) → IsNamedNow m parts.new) }
{
    if !is_done(answer) {
        return Ok(());
    }
    match entry {
        Some(number) => seat(parts, acting, number, None),
        None => Ok(()),
    }
}

// The object is obtained in the session, by the entry of this number, which stands on a body.
fn obtain(
    parts: &mut Parts,
    acting: Acting,
    pid: Pid,
    made: Option<Record>,
) -> Result<u32, NoMemory>
    requires { MayObtain parts.old acting pid made }
    ensures { IfOk result (λ n. (m : MayObtain parts.old acting pid made) → IsObtainedNow m n parts.new) }
{
    let number = parts.attended.obtain(acting.session, pid)?;
    seat(parts, acting, number, made)?;
    Ok(number)
}

/// The object that was found is obtained, where it is to be. The answer is the number of its entry. A new object comes with
/// its record, which is moved to its body.
pub fn obtain_found(
    parts: &mut Parts,
    acting: Acting,
    obtains: bool,
    answer: &Answer,
    made: Option<Record>,
) -> Result<Option<u32>, NoMemory>
    requires { MayFind parts.old acting obtains (plain_answer answer.now) made }
    ensures { IfOk result (λ entry. (m : MayFind parts.old acting obtains (plain_answer answer.now) made) → IsFoundNow m entry parts.new) }
{
    if !obtains {
        return Ok(None);
    }
    match answer {
        Answer::Found(pid) => {
            let number = obtain(parts, acting, *pid, made)?;
            Ok(Some(number))
        }
        _ => Ok(None),
    }
}
