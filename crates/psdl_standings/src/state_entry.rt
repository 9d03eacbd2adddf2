// The types of states.

/// The type of a state: its number, or the definition of the storage type that a reference is to, where they are there.
#[derive(Clone, Copy)]
pub enum StateEntry {
    Plain(Option<usize>),
    Reference(Option<usize>),
}
