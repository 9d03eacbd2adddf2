// What the definitions come to.
ghost use Rattle.page_format.specs.Laws.{ArePagesKept, ArePagesOneThing, AreRootsOneThing, IsRootThere, IsStoreKept};

/// The current root and its pages, with the objects in them, are in each image that has the same octets there. So they
/// stay whatever is written elsewhere, and a crash between two appends to the journal leaves them. The function does
/// nothing: its contract is the law.
pub fn a_store_stays()
    ensures root { IsRootThere }
    ensures pages { ArePagesKept }
    ensures store { IsStoreKept }
{}

/// Each image has a current root with right fields, or is no store, or its roots are damaged: exactly one of the three, and
/// the root and the place of the damage are one too. So what `read_root` answers is the only answer. The function does
/// nothing: its contract is the law.
pub fn roots_are_one_thing()
    ensures { AreRootsOneThing }
{}

/// In each image the pages of some slots are right, or damaged: exactly one of the two, and the damage has one place and one
/// kind. So what `gather` answers is the only answer. The function does nothing: its contract is the law.
pub fn pages_are_one_thing()
    ensures { ArePagesOneThing }
{}
