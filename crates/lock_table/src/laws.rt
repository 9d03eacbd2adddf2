// Laws over the definitions, for those that prove something above them.
ghost use Rattle.lock_table.specs.Agreement.{SameBlockers, SameCounts};
ghost use Rattle.lock_table.specs.Blockers.{BlockersAreLeast};

/// Where there is no blocker, no other owner has a lock that clashes with one of the needs. A blocker has one, and is no
/// greater than any other owner that has one.
pub fn blockers_are_least()
    ensures { BlockersAreLeast }
{}

/// Where each owner of the machine has locked what a table says of it, the machine and the table name the same owner that
/// holds up what is needed, and count as many locks.
pub fn owners_agree()
    ensures blockers { SameBlockers }
    ensures counts { SameCounts }
{}
