// A place in a text.

/// A place in a text. A line ends with LF.
#[derive(Clone, Copy, Debug, PartialEq, Eq, Drop)]
pub struct Place {
    /// The number of the line, from 1.
    pub line: u32,
    /// The number of the byte in its line, from 1.
    pub column: u32,
    /// The number of bytes in front of it in the text.
    pub offset: u32,
}
