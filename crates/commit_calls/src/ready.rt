// Commits are made ready.
ghost use Rattle.std.specs.Prelude.{◌≡◌, not, is_some, IfOk, IfSome, OnOk};
ghost use Rattle.pss_machine.specs.Kept.{Kept};
ghost use Rattle.pss_machine.specs.Deciding.{is_over_full};
ghost use Rattle.connector_parts.specs.Stands.{Stands, IsAt, StayAs};
ghost use Rattle.commit_calls.specs.Ready.{MayMakeReady, IsReady};

use crate::objects::{Pids, pids_of};
use connector_parts::Parts;
use owner_accounts::Commit;
use pss_base::{NoMemory, OwnerNo};

/// A commit that cannot fail any more, and the objects that it changes.
#[derive(Drop)]
pub struct Ready {
    pub commit: Commit,
    pub pids: Pids,
}

/// Makes ready what an owner changed. None exactly where the objects would weigh more together than they may.
pub fn make_ready(parts: &mut Parts, owner: OwnerNo) -> Result<Option<Ready>, NoMemory>
    requires { MayMakeReady parts.old owner }
    ensures full { IfOk result (λ found. (m : MayMakeReady parts.old owner) → is_some found ≡ not (is_over_full parts.old.schema parts.old.limits m.kept.catalog m.owner)) }
    ensures ready { IfOk result (λ found. IfSome found (λ ready. (m : MayMakeReady parts.old owner) → IsReady parts.new m.kept owner ready)) }
    ensures stands { OnOk result ((k : Kept) → IsAt parts.old k → Stands parts.new k) }
    ensures rest { StayAs parts.old parts.new }
{
    match parts
        .accounts
        .prepare(owner, parts.schema.schema(), parts.limits.total)?
    {
        Some(commit) => match pids_of(
            parts.alloc,
            &parts.accounts,
            owner,
            commit.changes().as_slice(),
        ) {
            Ok(pids) => Ok(Some(Ready { commit, pids })),
            Err(NoMemory) => Err(NoMemory),
        },
        None => Ok(None),
    }
}
