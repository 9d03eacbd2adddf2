// Why a root or its pages are not read.
use pss_base::DamageKind;

/// Why a root is not read. The content is as before.
#[derive(Clone, Copy, Debug, PartialEq, Eq, Drop)]
pub enum RootFault {
    /// The file has fewer than 4,456,448 octets, or no root area has an open gate and the right magic behind it.
    NotAStore,
    /// There are two roots and neither epoch is the other's plus one; the place is then 131,072. Or the field at this
    /// place is the first wrong one of the current root. The kind is `Root`.
    Damaged(u64, DamageKind),
    /// A call of the disk failed.
    DiskFault,
    /// There was no memory. It may come in place of any other answer.
    NoMemory,
}

/// Why the pages of a root are not read. The content is as before.
#[derive(Clone, Copy, Debug, PartialEq, Eq, Drop)]
pub enum PageFault {
    /// The pages are read in the order of the root's slots, and the entries of each in order. This is the first that
    /// is wrong, and its place in the file. `Page`: the head of a page, at the page. `Entry`: an entry that does not
    /// fit into the octets in use, or has a record of no octets or of more than 8,000, at the entry; or octets in use
    /// that are left, at the first of them. `Serial`: a serial that is 0, not below the root's next one, or seen
    /// before, at its entry. `Packing`: a second page with 8,328 octets or less in use, at the page.
    Damaged(u64, DamageKind),
    /// A call of the disk failed.
    DiskFault,
    /// There was no memory. It may come in place of any other answer.
    NoMemory,
}
