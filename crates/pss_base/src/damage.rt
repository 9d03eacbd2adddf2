// What is wrong in a damaged store.

/// What is wrong at a place of a store.
#[derive(Clone, Copy, Debug, PartialEq, Eq, Drop)]
pub enum DamageKind {
    /// There are two roots, and neither follows the other; or a field of the current root is wrong.
    Root,
    /// The head of a page: its magic, slot or zero octets, or more octets in use than it has room for.
    Page,
    /// The length or the home of an entry, or where it ends; octets in use that are left behind the last one.
    Entry,
    /// A serial that is 0, not given yet, or seen before.
    Serial,
    /// Octets that are no record of their home.
    Record,
    /// A reference to a serial that is not given yet.
    Ref,
    /// A key that another record has.
    Key,
    /// More than one page that could have held more.
    Packing,
    /// All records together are too long.
    Total,
    /// A gate or a head in the journal.
    Journal,
    /// What a record of the journal changes.
    Change,
}
