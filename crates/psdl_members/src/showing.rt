// What declarations have of a group in their bodies.
ghost use Rattle.std.specs.Prelude.{◌≡◌, ◌==◌, ◌||◌, ◌&&◌, ℕ, false, length};
ghost use Rattle.std.specs.List.{list_any};
ghost use Rattle.psdl_lineage.specs.Descent.{has};
ghost use Rattle.psdl_members.specs.declared.rows.Rows.{Rows};
ghost use Rattle.psdl_members.specs.inner.Claims.{AreClaims, has_claim};
ghost use Rattle.psdl_members.specs.inner.Rowed.{Entries, row_of};
ghost use Rattle.psdl_members.specs.inner.Seeing.{AreSeen, IsGroup, IsSeen, Sight};

use crate::claims::{Claim, claims_to};
use crate::group::Group;
use crate::seen::Seen;

fn add_seen(seen: &mut Vec<Seen>, number: usize, also: Seen)
    ensures sized { length seen.new.items ≡ length seen.old.items }
    ensures seen { (es : Entries) (some : ℕ → Sight) (there : Sight) → AreSeen seen.old.items es some → IsSeen also es there → AreSeen seen.new.items es (λ n test. some n test || (number == n && there test)) }
{
    if number >= seen.len() {
        return;
    }
    let all = seen[number].and(also);
    seen[number] = all;
}

fn show_claims(group: &Group, claims: &[Claim], seen: &mut Vec<Seen>)
    ensures sized { length seen.new.items ≡ length seen.old.items }
    ensures seen { (es : Entries) (some : ℕ → Sight) → IsGroup group.now es → AreSeen seen.old.items es some → AreSeen seen.new.items es (λ n test. some n test || has_claim claims.now n test) }
{
    for claim in claims {
        add_seen(seen, claim.declaration, group.seen(claim.entry));
    }
}

fn show_names(group: &Group, claims: &[Vec<Claim>], names: &[usize], seen: &mut Vec<Seen>)
    ensures sized { length seen.new.items ≡ length seen.old.items }
    ensures seen { (rows : Rows) (es : Entries) → AreClaims rows claims.now → IsGroup group.now es → AreSeen seen.old.items es (λ n test. false) → AreSeen seen.new.items es (λ n test. list_any (λ e. has names.now e.name && test e) (row_of rows n)) }
{
    for name in names {
        show_claims(group, claims_to(claims, *name), seen);
    }
}

/// Puts what they have of a group, and nothing else.
pub(crate) fn show(group: &Group, claims: &[Vec<Claim>], seen: &mut Vec<Seen>)
    ensures sized { length seen.new.items ≡ length seen.old.items }
    ensures seen { (rows : Rows) (es : Entries) → AreClaims rows claims.now → IsGroup group.now es → AreSeen seen.new.items es (λ n test. list_any test (row_of rows n)) }
{
    seen.fill(Seen::nothing());
    show_names(group, claims, &group.heads, seen);
}
