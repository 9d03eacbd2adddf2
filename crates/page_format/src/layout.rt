// Where what stands in a store.
//
// | Offset in the store | What |
// |---|---|
// | 0 | root area 0, 131,072 octets |
// | 131,072 | root area 1, 131,072 octets |
// | 262,144 | the journal |
// | 4,456,448 | slots of 16,384 octets, at most 16,384 of them; a page stands in a slot |
//
// | Offset in a root area | What |
// |---|---|
// | 0 | the gate, one octet: open exactly where it is A5 |
// | 1 | `PSSROOT` |
// | 8 | the epoch, 8 octets, big-endian like all numbers |
// | 16 | the next serial, 8 octets |
// | 24 | the length of the shape, 4 octets, at most 65,536 |
// | 28 | the number of pages, 4 octets, at most 8,058 |
// | 32 | the shape |
// | 65,568 | the slots of the pages, 4 octets each |

/// The length of a root area.
pub const AREA: u64 = 131072;

/// What stands behind the gate of a root.
pub const ROOT_MAGIC: [u8; 7] = *b"PSSROOT";

/// Where the epoch begins in a root area.
pub const EPOCH: usize = 8;

/// Where the next serial begins in a root area.
pub const NEXT: usize = 16;

/// Where the length of the shape begins in a root area.
pub const SHAPE_LENGTH: usize = 24;

/// Where the number of pages begins in a root area.
pub const PAGE_COUNT: usize = 28;

/// Where the shape begins in a root area, behind the head.
pub const SHAPE: usize = 32;

/// Where the list of slots begins in a root area.
pub const SLOT_LIST: u64 = 65568;

/// The greatest number of pages of a root.
pub const MOST_PAGES: u32 = 8058;

/// The number of slots.
pub const SLOTS: u32 = 16384;

/// The first octet of the first slot.
pub const FIRST_SLOT: u64 = 4456448;

/// The length of a page.
pub const PAGE: u64 = 16384;

//
// | Offset in a page | What |
// |---|---|
// | 0 | `PSSPAGE1` |
// | 8 | the epoch of the root that it was written for, 8 octets |
// | 16 | its slot, 4 octets |
// | 20 | the number of entries, 4 octets |
// | 24 | how many octets the entries use, 4 octets, at most 16,344 |
// | 28 | 12 zero octets |
// | 40 | the entries, one behind the other |
//
// | Offset in an entry | What |
// |---|---|
// | 0 | the number of the object's home, 4 octets |
// | 4 | the length of its record, 4 octets, 1 to 8,000 |
// | 8 | its serial, 8 octets |
// | 16 | its record |

/// What a page begins with.
pub const PAGE_MAGIC: [u8; 8] = *b"PSSPAGE1";

/// Where its slot stands in a page.
pub const PAGE_SLOT: usize = 16;

/// Where the number of entries stands in a page.
pub const ENTRY_COUNT: usize = 20;

/// Where the number of octets in use stands in a page.
pub const USED: usize = 24;

/// Where the zero octets stand in a page.
pub const ZEROS: usize = 28;

/// The zero octets in front of the entries of a page.
pub const PAGE_ZEROS: [u8; 12] = [0; 12];

/// Where the entries begin in a page, behind its head.
pub const ENTRIES: usize = 40;

/// The greatest number of octets in use.
pub const MOST_USED: u32 = 16344;

/// A page with more octets in use has no room for some entry.
pub const LITTLE: u32 = 8328;

/// Where the length of the record stands in an entry.
pub const RECORD_LENGTH: usize = 4;

/// Where the serial stands in an entry.
pub const SERIAL: usize = 8;

/// Where the record begins in an entry, behind its head.
pub const RECORD: usize = 16;
