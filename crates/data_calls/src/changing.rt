// Objects of entries are changed.
ghost use Rattle.std.specs.Prelude.{◌+◌, ◌≤◌, length, IfOk};
ghost use Rattle.pss_machine.specs.declared.command.Command.TheVariants as command;
ghost use Rattle.pss_machine.specs.Kept.{Kept};
ghost use Rattle.connector_parts.specs.Stands.{AnyAt, IsAt, Comes};

use crate::acting::acts_in;
use crate::asking::{asking, named};
use crate::finishing::ask;
use connector_parts::Parts;
use pss_base::{NoMemory, Steps};
use pss_machine::{Reply, Rest, Text};
use std::sync::ledger::Ledger;

/// `set S I M VALUE`: gives a member of an entry's object a value: `OK`. Else `NOENTRY`, `NOMEMBER`, `BADVALUE` with the
/// column, `READONLY` of the session or of the member, `MANY`, `GONE` with the object or one that the value refers to,
/// `DUPLICATE` with a key that is taken, or `TOOLARGE`.
pub fn set<L: Ledger>(
    parts: &mut Parts,
    name: &Text<'_>,
    entry: u64,
    member: &Text<'_>,
    value: &Rest<'_>,
    steps: &mut Steps<L>,
) -> Result<Reply, NoMemory>
    requires any { AnyAt parts.old }
    requires line { value.now.column + length value.now.text ≤ 65537 }
    ensures { IfOk result (λ reply. (k : Kept) → IsAt parts.old k → Comes parts.old k (command.Set name.now entry member.now value.now) reply parts.new) }
{
    match acts_in(parts, name.as_slice()) {
        Ok(acting) => {
            let entry = named(parts, acting, entry);
            let asked = asking(parts, acting).set(entry, member.as_slice(), value);
            ask(parts, acting, asked, steps)
        }
        Err(reply) => Ok(reply),
    }
}

/// `destroy S I`: removes an entry's object: `OK`. Else `NOENTRY`, `READONLY`, `MANY`, or `GONE` with the object.
pub fn destroy<L: Ledger>(
    parts: &mut Parts,
    name: &Text<'_>,
    entry: u64,
    steps: &mut Steps<L>,
) -> Result<Reply, NoMemory>
    requires { AnyAt parts.old }
    ensures { IfOk result (λ reply. (k : Kept) → IsAt parts.old k → Comes parts.old k (command.Destroy name.now entry) reply parts.new) }
{
    match acts_in(parts, name.as_slice()) {
        Ok(acting) => {
            let entry = named(parts, acting, entry);
            let asked = asking(parts, acting).destroy(entry);
            ask(parts, acting, asked, steps)
        }
        Err(reply) => Ok(reply),
    }
}
