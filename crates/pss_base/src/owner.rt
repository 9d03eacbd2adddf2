// The number of an owner.

/// A transaction or a basic session, as that which owns locks and changes. Owners have numbers of
/// their own, in the order in which they came.
#[derive(Clone, Copy, Debug, PartialEq, Eq, PartialOrd, Ord, Hash, Drop)]
pub struct OwnerNo(pub u32);
