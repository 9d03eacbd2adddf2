// What a body of the journal says.
use pss_base::Puts;

/// What a body of the journal says: the changes of one commit, and the next serial after it.
#[derive(Drop)]
pub struct Body {
    /// The least serial that no object was given.
    pub next: u64,
    /// The changes, by rising serials.
    pub puts: Puts,
}
