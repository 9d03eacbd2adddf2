// Laws over the definitions, for those that prove something above them.
ghost use Rattle.value_text.specs.Laws.{SpellsOneValue, OneStands, SpellingStands, WhatStandsIsRead};

/// A text spells at most one value of a sound type, and from a place on stands at most one, with one end.
pub fn one_value()
    ensures spells { SpellsOneValue }
    ensures stands { OneStands }
{}

/// A spelling of a value stands as this value wherever it is written, if the end or a blank follows. So
/// what was printed is read as the same value, whatever follows behind the blank.
pub fn spelling_stands()
    ensures { SpellingStands }
{}

/// What `read_members`, `read_chosen` and `read_one_value` take from the front of a line, where a value of a sound
/// type stands there, is this value up to its end, and they take nothing where none stands.
pub fn what_stands_is_read()
    ensures { WhatStandsIsRead }
{}
