// What the definitions come to.
ghost use Rattle.cdr_codec.specs.Laws.{BadNulMeans, HasNoRecord, HasOneRefusal, HasRecordOrRefusal};

/// Octets spell a record of a sound layout or are refused with one fault, and never both. So what `decode_record`
/// answers is the only answer, but for want of memory. The function does nothing: its contract is the law.
pub fn octets_are_a_record_or_refused()
    ensures one { HasOneRefusal }
    ensures no_record { HasNoRecord }
    ensures some { HasRecordOrRefusal }
{}

/// What `BadNul` means, octet by octet: some record of the layout has the octets in front of its place, and
/// none has the octet there as well; or a string's length begins there that is 0, and none has its four
/// octets. The function does nothing: its contract is the law.
pub fn bad_nul_has_the_first_wrong_octet()
    ensures means { BadNulMeans }
{}
