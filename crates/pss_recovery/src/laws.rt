// What the definitions come to.
ghost use Rattle.pss_recovery.specs.Laws.{IsImageOneThing, MountedStands, SpellsOneBody, StoresAreGood};

/// Octets spell at most one body. So what `decode_body` answers is the only answer. The function does nothing: its
/// contract is the law.
pub fn a_body_is_one_thing()
    ensures { SpellsOneBody }
{}

/// Under a sound schema octets either stand for a catalog and a next serial or are refused with a fault, and never both; the
/// catalog, the next serial and the fault are one. So what a mount answers is the only answer. The function does nothing:
/// its contract is the law.
pub fn an_image_is_one_thing()
    ensures { IsImageOneThing }
{}

/// What an image of a store stands for is a good catalog: each object is of a home of the schema, with a record of the home's
/// layout of at most 8,000 octets; all serials and references are given; keys are unique; and the sum is within its limit.
/// The function does nothing: its contract is the law.
pub fn a_store_is_good()
    ensures { StoresAreGood }
{}

/// What is known in memory of a store that is mounted tells more than its content: this stands for the catalog and the next
/// serial. The function does nothing: its contract is the law.
pub fn a_mounted_store_stands()
    ensures { MountedStands }
{}
