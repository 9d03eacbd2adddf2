// Keys and factories by number.

/// A key or a factory: the number of its name in small letters, and that of its list.
#[derive(Clone, Copy)]
pub(crate) struct Entry {
    pub name: usize,
    pub list: usize,
}
