// Where what stands in the journal of a store.
//
// | Offset in the store | What |
// |---|---|
// | 262,144 | the first gate, one octet: open exactly where it is A5 |
// | 4,456,448 | the first octet behind the journal |
//
// | Offset behind a gate | What |
// |---|---|
// | 1 | the epoch, 8 octets, big-endian |
// | 9 | the length of the body, 4 octets, big-endian |
// | 13 | the body |
// | 13 + length | the next gate |

/// The first octet of the journal: its first gate.
pub const JOURNAL_START: u32 = 262144;

/// The first octet behind the journal.
pub const JOURNAL_END: u32 = 4456448;

/// An open gate.
pub const OPEN: u8 = 0xA5;

/// A gate that was closed.
pub const CLOSED: u8 = 0;

/// Where the epoch begins behind a gate.
pub const EPOCH: usize = 1;

/// Where the length of the body begins behind a gate.
pub const LENGTH: usize = 9;

/// Where the body begins behind a gate.
pub const BODY: usize = 13;
