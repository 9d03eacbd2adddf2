// Objects of homes are counted and listed.
ghost use Rattle.std.specs.Prelude.{IfOk};
ghost use Rattle.pss_machine.specs.declared.command.Command.TheVariants as command;
ghost use Rattle.pss_machine.specs.Kept.{Kept};
ghost use Rattle.connector_parts.specs.Stands.{AnyAt, IsAt, Comes};

use crate::acting::acts_in;
use crate::asking::asking;
use crate::finishing::ask;
use connector_parts::Parts;
use pss_base::{NoMemory, Steps};
use pss_machine::{Reply, Text};
use std::sync::ledger::Ledger;

/// `count S H`: how many objects the home and those derived from it have, or `NOHOME`.
pub fn count<L: Ledger>(
    parts: &mut Parts,
    name: &Text<'_>,
    home: &Text<'_>,
    steps: &mut Steps<L>,
) -> Result<Reply, NoMemory>
    requires { AnyAt parts.old }
    ensures { IfOk result (λ reply. (k : Kept) → IsAt parts.old k → Comes parts.old k (command.Count name.now home.now) reply parts.new) }
{
    match acts_in(parts, name.as_slice()) {
        Ok(acting) => {
            let asked = asking(parts, acting).count(home.as_slice());
            ask(parts, acting, asked, steps)
        }
        Err(reply) => Ok(reply),
    }
}

/// `list S H`: the same, and the pids of the first 256 by serial, or `NOHOME`.
pub fn list<L: Ledger>(
    parts: &mut Parts,
    name: &Text<'_>,
    home: &Text<'_>,
    steps: &mut Steps<L>,
) -> Result<Reply, NoMemory>
    requires { AnyAt parts.old }
    ensures { IfOk result (λ reply. (k : Kept) → IsAt parts.old k → Comes parts.old k (command.List name.now home.now) reply parts.new) }
{
    match acts_in(parts, name.as_slice()) {
        Ok(acting) => {
            let asked = asking(parts, acting).list(home.as_slice());
            ask(parts, acting, asked, steps)
        }
        Err(reply) => Ok(reply),
    }
}
