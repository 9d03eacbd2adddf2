// Pieces of a list, by where each begins.
ghost use Rattle.std.specs.Prelude.{◌≡◌};
ghost use Rattle.psdl_members.specs.inner.Flat.{piece_of};

/// What stands from where a number's begins to where that of the next begins. What is not there is empty.
pub(crate) fn piece<'s, T>(items: &'s [T], starts: &[usize], number: usize) -> &'s [T]
    ensures { result.now ≡ piece_of starts.now number items.now }
{
    let Some(start) = starts.get(number) else {
        return &[];
    };
    let Some(end) = starts.get(number + 1) else {
        return &[];
    };
    if *start > *end || *end > items.len() {
        return &[];
    }
    &items[*start..*end]
}
