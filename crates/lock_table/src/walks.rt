// Walks along a row of locks.
ghost use Rattle.std.specs.Prelude.{◌≡◌, Some, IsSome};
ghost use Rattle.std.specs.FinMap as map;
ghost use Rattle.lock_table.specs.inner.Nodes.{any_in_row, least_in_row, is_own, is_against, owner_if, lesser};
ghost use Rattle.pss_machine.specs.Needs.{go_together};

use crate::links::Lock;
use link_pool::{Pool, Row};
use pss_base::OwnerNo;
use pss_machine::Mode;

// Two modes on one resource go together where both read, or both add and take away.
fn goes_with(a: Mode, b: Mode) -> bool
    ensures { result ≡ go_together a b }
{
    match (a, b) {
        (Mode::S, Mode::S) => true,
        (Mode::M, Mode::M) => true,
        _ => false,
    }
}

impl Lock {
    // Whether it is the owner's, in this mode.
    fn is_own(&self, owner: OwnerNo, mode: Mode) -> bool
        ensures { result ≡ is_own owner mode self.now }
    {
        self.owner == owner && self.mode == mode
    }

    // Its owner, where that is another and the modes do not go together.
    fn against(&self, owner: OwnerNo, mode: Mode) -> Option<OwnerNo>
        ensures { result ≡ owner_if (is_against owner mode) (Some self.now) }
    {
        if self.owner != owner && !goes_with(self.mode, mode) {
            Some(self.owner)
        } else {
            None
        }
    }
}

/// Whether an owner has a lock in this mode in the row.
pub fn is_in_row(pool: &Pool<Lock>, row: Row, owner: OwnerNo, mode: Mode) -> bool
    requires { IsSome (map.get pool.now.rows row) }
    ensures { result ≡ any_in_row pool.now row (is_own owner mode) }
{
    pool.rings_hold();
    let mut next = pool.first_of_row_uncounted(row);
    while let Some(node) = next {
        if pool.item(node).is_own(owner, mode) {
            return true;
        }
        next = pool.next_in_row_uncounted(node);
    }
    false
}

/// The lesser of two owners, where there are two.
pub fn lesser(a: Option<OwnerNo>, b: Option<OwnerNo>) -> Option<OwnerNo>
    ensures { result ≡ lesser a b }
{
    match (a, b) {
        (Some(x), Some(y)) => Some(if y.0 < x.0 { y } else { x }),
        (None, b) => b,
        (a, None) => a,
    }
}

/// The least other owner with a lock in the row that does not go together with this mode.
pub fn least_against(pool: &Pool<Lock>, row: Row, owner: OwnerNo, mode: Mode) -> Option<OwnerNo>
    requires { IsSome (map.get pool.now.rows row) }
    ensures { result ≡ least_in_row pool.now row (is_against owner mode) }
{
    pool.rings_hold();
    let mut least = None;
    let mut next = pool.first_of_row_uncounted(row);
    while let Some(node) = next {
        least = lesser(least, pool.item(node).against(owner, mode));
        next = pool.next_in_row_uncounted(node);
    }
    least
}
