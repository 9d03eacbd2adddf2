// Places of the text.

/// A place in the scope of a declaration, at which the first so many declarations stand. In a struct that is declared
/// first by `own`, its own name may not stand.
#[derive(Clone, Copy)]
pub(crate) struct Spot {
    pub limit: usize,
    pub number: usize,
    pub own: Option<usize>,
}
