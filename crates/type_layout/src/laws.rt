// Laws over the definitions, for those that prove something above them.
ghost use Rattle.type_layout.specs.Laws.{HasOneSpelling, IsSpelledAlike, NoValueBegins, NoRecordBegins, KeysTell, KeyValuesTell};

/// A value of a type has one spelling at a place, which depends on the place modulo 8 alone.
pub fn one_spelling()
    ensures one { HasOneSpelling }
    ensures alike { IsSpelledAlike }
{}

/// No spelling begins another: neither of two values of a type at a place, nor of two records of a
/// layout. So octets spell at most one of them.
pub fn no_spelling_begins()
    ensures values { NoValueBegins }
    ensures records { NoRecordBegins }
{}

/// Two records of homes that have a key have the same key bytes exactly where the key's members
/// have the same values in both.
pub fn keys_tell()
    ensures { KeysTell }
{}

/// The bytes of the values of a key (`key_of_values`) are those of each record in which the key's
/// members have these values (`key_of`).
pub fn key_values_tell()
    ensures { KeyValuesTell }
{}
