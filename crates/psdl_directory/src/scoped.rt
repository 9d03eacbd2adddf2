// What declarations are looked up by.
use crate::kind::KindNo;
use crate::number::SpellingNo;

/// A spelling in a scope; and the kind of what is spelled so, in tables that tell kinds apart.
#[derive(Clone, Copy, PartialEq, Eq, PartialOrd, Ord)]
pub(crate) struct Scoped {
    pub scope: usize,
    pub kind: Option<KindNo>,
    pub spelling: SpellingNo,
}
