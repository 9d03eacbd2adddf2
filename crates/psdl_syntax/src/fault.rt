// Why tokens are no text.

/// The first fault of a list of tokens, with the number of tokens from it to the end. At 0 it is the end, where a token
/// is lacking.
#[derive(Clone, Copy, Drop)]
pub enum Fault {
    /// No text begins with the tokens before this one and with it.
    Unexpected(usize),
    /// One more bracket opens here than may be open at once.
    TooDeep(usize),
}
