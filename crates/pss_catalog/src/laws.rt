// Laws over the definitions, for those that prove something above them.
ghost use Rattle.pss_catalog.specs.Laws.{FoundWith, FoundWithout, FoundOver, OverBoth, EntriesWithout, ListedWithout, ListedWith, ListsNoOther, HolderIsOne, TotalWithout, TotalWith, UniqueWithout, UniqueWith};

/// An insertion and a removal change what is found at their serial alone, and several changes leave what
/// the last of each serial says.
pub fn objects_change()
    ensures with { FoundWith }
    ensures without { FoundWithout }
    ensures over { FoundOver }
    ensures both { OverBoth }
{}

/// The objects that pass a test, so the holders of a key, are after a removal all the others, and after an
/// insertion these with the object in its place where it passes.
pub fn lists_change()
    ensures entries { EntriesWithout }
    ensures without { ListedWithout }
    ensures with { ListedWith }
    ensures alone { ListsNoOther }
{}

/// The total loses what an object weighed, and gains what another one weighs.
pub fn totals_change()
    ensures without { TotalWithout }
    ensures with { TotalWith }
{}

/// Where keys are unique, a key's holder is listed alone; they stay so after a removal, and after an
/// insertion exactly where the object has no rival.
pub fn keys_stay_unique()
    ensures one { HolderIsOne }
    ensures without { UniqueWithout }
    ensures with { UniqueWith }
{}
