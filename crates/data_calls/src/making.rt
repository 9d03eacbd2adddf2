// Objects are made.
ghost use Rattle.std.specs.Prelude.{◌+◌, ◌≤◌, length, IfOk};
ghost use Rattle.pss_machine.specs.declared.command.Command.TheVariants as command;
ghost use Rattle.pss_machine.specs.Kept.{Kept};
ghost use Rattle.connector_parts.specs.Stands.{AnyAt, IsAt, Comes};

use crate::acting::acts_in;
use crate::asking::asking;
use crate::finishing::ask;
use connector_parts::Parts;
use pss_base::{NoMemory, Steps};
use pss_machine::{Reply, Rest, Text};
use std::sync::ledger::Ledger;

/// `create S H VALUES`: makes an object of the home with these values and obtains it: its entry and its pid. Else
/// `NOHOME`, `BADVALUE` with the column, `READONLY`, `MANY`, `SERIALS`, `ENTRIES`, `GONE` with an object that a value
/// refers to, `DUPLICATE` with a key that is taken, or `TOOLARGE`.
pub fn create<L: Ledger>(
    parts: &mut Parts,
    name: &Text<'_>,
    home: &Text<'_>,
    values: &Rest<'_>,
    steps: &mut Steps<L>,
) -> Result<Reply, NoMemory>
    requires any { AnyAt parts.old }
    requires line { values.now.column + length values.now.text ≤ 65537 }
    ensures { IfOk result (λ reply. (k : Kept) → IsAt parts.old k → Comes parts.old k (command.Create name.now home.now values.now) reply parts.new) }
{
    match acts_in(parts, name.as_slice()) {
        Ok(acting) => {
            let asked = asking(parts, acting).create(home.as_slice(), values);
            ask(parts, acting, asked, steps)
        }
        Err(reply) => Ok(reply),
    }
}

/// `make S H F VALUES`: the same by a factory of the home, which says to which members the values are given. Else
/// `NOFACTORY` too, behind `NOHOME`.
pub fn make<L: Ledger>(
    parts: &mut Parts,
    name: &Text<'_>,
    home: &Text<'_>,
    factory: &Text<'_>,
    values: &Rest<'_>,
    steps: &mut Steps<L>,
) -> Result<Reply, NoMemory>
    requires any { AnyAt parts.old }
    requires line { values.now.column + length values.now.text ≤ 65537 }
    ensures { IfOk result (λ reply. (k : Kept) → IsAt parts.old k → Comes parts.old k (command.Make name.now home.now factory.now values.now) reply parts.new) }
{
    match acts_in(parts, name.as_slice()) {
        Ok(acting) => {
            let asked = asking(parts, acting).make(home.as_slice(), factory.as_slice(), values);
            ask(parts, acting, asked, steps)
        }
        Err(reply) => Ok(reply),
    }
}
