// What is kept.
use incarnations::Incarnations;
use pss_session::Sessions;

/// The sessions, and the entries of each with what they stand on.
#[derive(Drop)]
pub struct Parts {
    pub sessions: Sessions,
    pub copies: Incarnations,
}
