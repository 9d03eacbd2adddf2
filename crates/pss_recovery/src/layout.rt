// Where what stands in a body of the journal.
//
// | Offset in a body | What |
// |---|---|
// | 0 | the next serial, 8 octets, big-endian like all numbers |
// | 8 | the number of changes, 4 octets, 1 to 256 |
// | 12 | the changes, one behind the other |
//
// | Offset in a change | What |
// |---|---|
// | 0 | the number of the object's home, 4 octets |
// | 4 | its serial, 8 octets |
// | 12 | the length of its record, 4 octets; 0 where the object is removed |
// | 16 | its record, at most 8,000 octets |

/// Where the number of changes stands in a body.
pub const COUNT: usize = 8;

/// Where the changes begin in a body.
pub const CHANGES: usize = 12;

/// Where the serial stands in a change.
pub const SERIAL: usize = 4;

/// Where the length of the record stands in a change.
pub const LENGTH: usize = 12;

/// Where the record begins in a change.
pub const RECORD: usize = 16;

/// The epoch of the first root of a store.
pub const FIRST_EPOCH: u64 = 1;

/// The first serial that a store gives.
pub const FIRST_SERIAL: u64 = 1;

/// How many octets are written at once where a store is cleared.
pub const PIECE: usize = 131072;

/// How many such pieces stand in front of the slots.
pub const PIECES: u32 = 34;
