// The limits of what is stored, to which several layers hold.

/// The greatest number of octets of a record.
pub const LONGEST_RECORD: u32 = 8_000;

/// The greatest number of octets of a text's shape.
pub const LONGEST_SHAPE: u32 = 65_536;

/// What an object weighs beside the octets of its record.
pub const OBJECT_WEIGHT: u64 = 16;

/// The most that all objects may weigh together, each `OBJECT_WEIGHT` and the octets of its record.
pub const GREATEST_TOTAL: u64 = 67_108_864;

/// The greatest number of objects that one commit changes.
pub const MOST_CHANGES: u32 = 256;
