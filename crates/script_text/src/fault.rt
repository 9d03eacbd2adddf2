// Why a line is no command.

/// A line is not of the grammar.
#[derive(Clone, Copy, Debug, PartialEq, Eq, Drop)]
pub struct CommandFault {
    /// The column of its first word that cannot stand, from 1, or one past the line's end where a word is missing.
    pub column: u32,
}
