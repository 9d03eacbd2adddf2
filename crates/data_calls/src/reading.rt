// Objects of entries are read.
ghost use Rattle.std.specs.Prelude.{IfOk};
ghost use Rattle.pss_machine.specs.declared.command.Command.TheVariants as command;
ghost use Rattle.pss_machine.specs.Kept.{Kept};
ghost use Rattle.connector_parts.specs.Stands.{AnyAt, IsAt, Comes};

use crate::acting::acts_in;
use crate::asking::{asking, named};
use crate::finishing::ask;
use connector_parts::Parts;
use pss_base::{NoMemory, Steps};
use pss_machine::{Reply, Text};
use std::sync::ledger::Ledger;

/// `exists S I`: whether the object of an entry is there, or `NOENTRY`.
pub fn exists<L: Ledger>(
    parts: &mut Parts,
    name: &Text<'_>,
    entry: u64,
    steps: &mut Steps<L>,
) -> Result<Reply, NoMemory>
    requires { AnyAt parts.old }
    ensures { IfOk result (λ reply. (k : Kept) → IsAt parts.old k → Comes parts.old k (command.Exists name.now entry) reply parts.new) }
{
    match acts_in(parts, name.as_slice()) {
        Ok(acting) => {
            let entry = named(parts, acting, entry);
            let asked = asking(parts, acting).exists(entry);
            ask(parts, acting, asked, steps)
        }
        Err(reply) => Ok(reply),
    }
}

/// `get S I M`: the value of a member of an entry's object, as text. Else `NOENTRY`, `NOMEMBER`, or `GONE` with the object.
pub fn get<L: Ledger>(
    parts: &mut Parts,
    name: &Text<'_>,
    entry: u64,
    member: &Text<'_>,
    steps: &mut Steps<L>,
) -> Result<Reply, NoMemory>
    requires { AnyAt parts.old }
    ensures { IfOk result (λ reply. (k : Kept) → IsAt parts.old k → Comes parts.old k (command.Get name.now entry member.now) reply parts.new) }
{
    match acts_in(parts, name.as_slice()) {
        Ok(acting) => {
            let entry = named(parts, acting, entry);
            let asked = asking(parts, acting).get(entry, member.as_slice());
            ask(parts, acting, asked, steps)
        }
        Err(reply) => Ok(reply),
    }
}

/// `follow S I M`: obtains the object that a member of an entry's object refers to: its entry and its pid. Else `NOENTRY`,
/// `NOMEMBER`, `NOTREF`, `ENTRIES`, `NIL`, or `GONE` with the object that is not there.
pub fn follow<L: Ledger>(
    parts: &mut Parts,
    name: &Text<'_>,
    entry: u64,
    member: &Text<'_>,
    steps: &mut Steps<L>,
) -> Result<Reply, NoMemory>
    requires { AnyAt parts.old }
    ensures { IfOk result (λ reply. (k : Kept) → IsAt parts.old k → Comes parts.old k (command.Follow name.now entry member.now) reply parts.new) }
{
    match acts_in(parts, name.as_slice()) {
        Ok(acting) => {
            let entry = named(parts, acting, entry);
            let asked = asking(parts, acting).follow(entry, member.as_slice());
            ask(parts, acting, asked, steps)
        }
        Err(reply) => Ok(reply),
    }
}
