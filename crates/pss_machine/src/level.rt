// How far owners are kept apart.

/// How far an owner, which is a transaction or a basic session, is kept apart from the others.
#[derive(Clone, Copy, Debug, PartialEq, Eq, Drop)]
pub enum Level {
    /// It answers and changes the catalog as if it ran alone, in the order of commits.
    Serializable,
    /// It reads its own changes, and else what was committed last.
    ReadCommitted,
    /// The level of basic sessions. It locks what it writes alone, and may read copies of its own.
    Basic,
}
