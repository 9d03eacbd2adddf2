// What the definitions come to.
ghost use Rattle.redo_journal.specs.Laws.{HoldsOneList, IsDamagedOnce, IsEither, IsNeverBoth};

/// In each image the journal of an epoch is one thing: one list of bodies up to one end, or damaged at one place. So what
/// `replay` answers is the only answer. The function does nothing: its contract is the law.
pub fn a_journal_is_one_thing()
    ensures either { IsEither }
    ensures bodies { HoldsOneList }
    ensures damaged { IsDamagedOnce }
    ensures never_both { IsNeverBoth }
{}
