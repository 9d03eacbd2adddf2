// What commands are asked under.
ghost use Rattle.std.specs.Prelude.{◌≡◌};
ghost use Rattle.pss_machine.specs.Kept.{Kept, copies_of};
ghost use Rattle.pss_asking.specs.Telling.{entry_named};
ghost use Rattle.connector_parts.specs.Stands.{IsAt};

use crate::acting::Acting;
use connector_parts::{Parts, entry_number};
use pss_asking::{Asking, Named};

/// What a command in the session is asked under.
#[inline(always)]
pub fn asking(parts: &Parts, acting: Acting) -> Asking<'_>
    ensures schema { result.names.now ≡ parts.now.schema }
    ensures access { result.access ≡ acting.access }
    ensures next { (k : Kept) → IsAt parts.now k → result.next ≡ k.next }
{
    Asking {
        alloc: parts.alloc,
        names: &parts.schema,
        access: acting.access,
        next: parts.accounts.next(),
    }
}

/// The entry of the session that a command names. None: it has none of this number.
#[inline(always)]
pub fn named(parts: &Parts, acting: Acting, entry: u64) -> Option<Named>
    ensures { (k : Kept) → IsAt parts.now k → result ≡ entry_named (copies_of k acting.session) entry }
{
    let number = entry_number(entry)?;
    let pid = parts.pid_of(acting.session, entry)?;
    Some(Named { number, pid })
}
