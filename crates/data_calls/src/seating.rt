// Entries that come to stand on bodies.
ghost use Rattle.std.specs.Prelude.{◌≡◌, IfOk, OnOk};
ghost use Rattle.pss_base.specs.declared.pid.Pid.{Pid as PlainPid};
ghost use Rattle.type_layout.specs.declared.schema.Schema.{Schema};
ghost use Rattle.pss_machine.specs.Kept.{Kept};
ghost use Rattle.pss_machine.specs.Copies.{view_in};
ghost use Rattle.pss_copies.specs.Seats.{seated_at};
ghost use Rattle.owner_accounts.specs.Accounts.{AreAccounts};
ghost use Rattle.data_calls.specs.Acting.{IsActing};
ghost use Rattle.data_calls.specs.Ways.{IsOnWay, HasValues, MaySee, MaySeat, IsLoose};

use crate::acting::Acting;
use connector_parts::Parts;
use pss_base::{NoMemory, Pid};
use pss_machine::View;
use type_layout::Record;

// The view in which the session sees the object of a serial.
fn view_of(parts: &Parts, acting: Acting, serial: u64) -> View
    ensures { (S : Schema) (k : Kept) (is : IsActing k acting) (pid : PlainPid) → AreAccounts S parts.now.accounts k → pid.serial ≡ serial → result ≡ view_in k.owners acting.session is.session pid }
{
    if parts.accounts.changed(acting.owner, serial) {
        return View::Own(acting.owner);
    }
    if acting.basic {
        View::Kept(acting.session)
    } else {
        View::Committed
    }
}

// The record of an object as the owner sees it: the one that it was made with, where this is at hand, else a copy.
fn record_seen(
    parts: &Parts,
    acting: Acting,
    pid: Pid,
    made: Option<Record>,
) -> Result<Record, NoMemory>
    requires { MaySee parts.now acting pid made }
    ensures { IfOk result (λ values. (m : MaySee parts.now acting pid made) → HasValues m.on.to acting m.on.is pid values) }
{
    if let Some(values) = made {
        return Ok(values);
    }
    match parts
        .accounts
        .record_of(acting.owner, parts.schema.schema(), pid.serial)?
    {
        Some(values) => Ok(values),
        None => unreachable!(),
    }
}

// The entry, which stands on no body, stands on the one in the view.
#[inline(always)]
fn place(
    parts: &mut Parts,
    acting: Acting,
    number: u32,
    made: Option<Record>,
) -> Result<(), NoMemory>
    requires may { MaySeat parts.old acting number made }
    requires loose { IsLoose parts.old acting.session number }
    ensures { OnOk result ((m : MaySeat parts.old acting number made) → IsOnWay m.on.schema m.on.limits parts.new m.on.to (seated_at m.on.now acting.session number)) }
{
    let copies = parts.attended.copies();
    copies.copies_hold();
    let Some(pid) = copies.pid_of(acting.session, number) else {
        unreachable!()
    };
    let view = view_of(parts, acting, pid.serial);
    if parts.attended.copies().has_body(pid, view) {
        parts.attended.share(acting.session, number, view);
        return Ok(());
    }
    let values = record_seen(parts, acting, pid, made)?;
    parts.attended.attach(acting.session, number, view, values)
}

/// The session's entry stands on the body of its object as the session sees it, where it stands on none. The record of a new
/// object is moved to its body.
#[inline(always)]
pub fn seat(
    parts: &mut Parts,
    acting: Acting,
    number: u32,
    made: Option<Record>,
) -> Result<(), NoMemory>
    requires { MaySeat parts.old acting number made }
    ensures { OnOk result ((m : MaySeat parts.old acting number made) → IsOnWay m.on.schema m.on.limits parts.new m.on.to (seated_at m.on.now acting.session number)) }
{
    let copies = parts.attended.copies();
    copies.copies_hold();
    match copies.value(acting.session, number) {
        Some(_) => {
            parts.attended.entries_stay();
            Ok(())
        }
        None => place(parts, acting, number, made),
    }
}
