// What is seen of a group of at most 64 entries: a bit for each of them.
ghost use Rattle.std.specs.Prelude.{◌≡◌, ◌≤◌, ◌||◌, ℕ, true, length};
ghost use Rattle.std.specs.List.{list_any};
ghost use Rattle.psdl_lineage.specs.Descent.{has};
ghost use Rattle.psdl_members.specs.inner.Rowed.{Entries};
ghost use Rattle.psdl_members.specs.inner.Seeing as seeing;
ghost use Rattle.psdl_members.specs.inner.Seeing.{IsSeen, Sight, is_met, seen_at};

/// Which entries of a group are there, and which of them clash with one that is there.
#[derive(Clone, Copy)]
pub(crate) struct Seen {
    pub same: u64,
    pub other: u64,
}

impl Seen {
    /// Nothing is there.
    pub(crate) fn nothing() -> Seen
        ensures { result ≡ seeing.nothing }
    {
        Seen { same: 0, other: 0 }
    }

    /// What is there here or there.
    pub(crate) fn and(self, also: Seen) -> Seen
        ensures { (es : Entries) (here there : Sight) → IsSeen self es here → IsSeen also es there → IsSeen result es (λ test. here test || there test) }
    {
        Seen {
            same: self.same | also.same,
            other: self.other | also.other,
        }
    }

    /// Whether one of the group is there, and one that clashes with it.
    pub(crate) fn has_clash(self) -> bool
        ensures { (es : Entries) (some : Sight) → length es ≤ 64 → IsSeen self es some → result ≡ list_any (is_met some) es }
    {
        self.same & self.other != 0
    }
}

/// What a declaration sees.
pub(crate) fn seen_at(seen: &[Seen], number: usize) -> Seen
    ensures { result ≡ seen_at seen.now number }
{
    match seen.get(number) {
        Some(found) => *found,
        None => Seen::nothing(),
    }
}

/// What some declarations see together.
pub(crate) fn seen_by_all(seen: &[Seen], numbers: &[usize]) -> Seen
    ensures { (es : Entries) (some : ℕ → Sight) → ((p : ℕ) → has numbers.now p ≡ true → IsSeen (seen_at seen.now p) es (some p)) → IsSeen result es (λ test. list_any (λ p. some p test) numbers.now) }
{
    let mut all = Seen::nothing();
    for number in numbers {
        all = all.and(seen_at(seen, *number));
    }
    all
}
