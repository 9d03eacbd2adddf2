// Objects are found.
ghost use Rattle.std.specs.Prelude.{◌≡◌, ◌+◌, ◌≤◌, length, IfOk};
ghost use Rattle.pss_machine.specs.declared.command.Command.TheVariants as command;
ghost use Rattle.pss_machine.specs.Kept.{Kept};
ghost use Rattle.pss_machine.specs.Operations.{FindPid, Ask};
ghost use Rattle.pss_machine.specs.Asking.{obtaining};
ghost use Rattle.pss_asking.specs.Telling.{plain_asked};
ghost use Rattle.connector_parts.specs.Stands.{AnyAt, IsAt, Comes};

use crate::acting::acts_in;
use crate::asking::asking;
use crate::finishing::ask;
use connector_parts::Parts;
use pss_asking::Asked;
use pss_base::{NoMemory, Pid, Steps};
use pss_machine::{Op, Reply, Rest, Text};
use std::sync::ledger::Ledger;

// The object of a pid is to be obtained.
fn looking_up(pid: Pid) -> Asked
    ensures { plain_asked result ≡ obtaining (Ask (FindPid pid)) }
{
    Asked {
        op: Op::FindPid { pid },
        entry: None,
        obtains: true,
    }
}

/// `find S H K VALUES`: obtains the object of the home, or of one derived from it, that holds the key with these values:
/// its entry and its pid. Else `NOHOME`, `NOKEY`, `BADVALUE` with the column, `ENTRIES` or `NOTFOUND`.
pub fn find<L: Ledger>(
    parts: &mut Parts,
    name: &Text<'_>,
    home: &Text<'_>,
    key: &Text<'_>,
    values: &Rest<'_>,
    steps: &mut Steps<L>,
) -> Result<Reply, NoMemory>
    requires any { AnyAt parts.old }
    requires line { values.now.column + length values.now.text ≤ 65537 }
    ensures { IfOk result (λ reply. (k : Kept) → IsAt parts.old k → Comes parts.old k (command.Find name.now home.now key.now values.now) reply parts.new) }
{
    match acts_in(parts, name.as_slice()) {
        Ok(acting) => {
            let asked = asking(parts, acting).find(home.as_slice(), key.as_slice(), values);
            ask(parts, acting, asked, steps)
        }
        Err(reply) => Ok(reply),
    }
}

/// `findref S H K VALUES`: the pid of that object, for which no entry is made. Else `NOHOME`, `NOKEY`, `BADVALUE` with the
/// column, or `NOTFOUND`.
pub fn findref<L: Ledger>(
    parts: &mut Parts,
    name: &Text<'_>,
    home: &Text<'_>,
    key: &Text<'_>,
    values: &Rest<'_>,
    steps: &mut Steps<L>,
) -> Result<Reply, NoMemory>
    requires any { AnyAt parts.old }
    requires line { values.now.column + length values.now.text ≤ 65537 }
    ensures { IfOk result (λ reply. (k : Kept) → IsAt parts.old k → Comes parts.old k (command.FindRef name.now home.now key.now values.now) reply parts.new) }
{
    match acts_in(parts, name.as_slice()) {
        Ok(acting) => {
            let asked = asking(parts, acting).findref(home.as_slice(), key.as_slice(), values);
            ask(parts, acting, asked, steps)
        }
        Err(reply) => Ok(reply),
    }
}

/// `short S H N`: obtains the object of a serial, where its home is of the family of this one: its entry and its pid. Else
/// `NOHOME`, `ENTRIES` or `NOTFOUND`.
pub fn short<L: Ledger>(
    parts: &mut Parts,
    name: &Text<'_>,
    home: &Text<'_>,
    serial: u64,
    steps: &mut Steps<L>,
) -> Result<Reply, NoMemory>
    requires { AnyAt parts.old }
    ensures { IfOk result (λ reply. (k : Kept) → IsAt parts.old k → Comes parts.old k (command.Short name.now home.now serial) reply parts.new) }
{
    match acts_in(parts, name.as_slice()) {
        Ok(acting) => {
            let asked = asking(parts, acting).short(home.as_slice(), serial);
            ask(parts, acting, asked, steps)
        }
        Err(reply) => Ok(reply),
    }
}

/// `pid S P`: obtains the object of a pid: its entry and the pid. Else `ENTRIES` or `NOTFOUND`.
pub fn pid<L: Ledger>(
    parts: &mut Parts,
    name: &Text<'_>,
    pid: Pid,
    steps: &mut Steps<L>,
) -> Result<Reply, NoMemory>
    requires { AnyAt parts.old }
    ensures { IfOk result (λ reply. (k : Kept) → IsAt parts.old k → Comes parts.old k (command.Pid name.now pid) reply parts.new) }
{
    match acts_in(parts, name.as_slice()) {
        Ok(acting) => ask(parts, acting, Ok(looking_up(pid)), steps),
        Err(reply) => Ok(reply),
    }
}
