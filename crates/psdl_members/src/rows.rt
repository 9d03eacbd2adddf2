// The keys, or the factories, of all homes by number.
ghost use Rattle.psdl_members.specs.inner.Below.{AreBelow};

use crate::entry::Entry;
use crate::pieces::piece;

/// What each declaration has in its body, one behind the other, and where what each has begins.
#[derive(Drop)]
pub(crate) struct Rows {
    pub entries: Vec<Entry>,
    pub starts: Vec<usize>,
    /// The numbers of all names are less than that.
    pub names: usize,
    ghost below: { AreBelow names entries.items },
}

impl Rows {
    ghost use Rattle.std.specs.Prelude.{◌≡◌, ◌≤◌, ℕ, []};
    ghost use Rattle.psdl_members.specs.inner.Rowed.{row_of};

    /// The entries of a declaration.
    pub(crate) fn of(&self, declaration: usize) -> &[Entry]
        ensures { result.now ≡ row_of self.now declaration }
    {
        piece(&self.entries, &self.starts, declaration)
    }

    /// How many declarations have a row.
    pub(crate) fn len(&self) -> usize
        ensures { (n : ℕ) → result ≤ n → row_of self.now n ≡ [] }
    {
        self.starts.len().saturating_sub(1)
    }
}
