// Keys or factories whose names are equal but for case, with different lists.
ghost use Rattle.std.specs.Prelude.{◌≡◌, ◌<◌, ◌++◌, ◌∷◌, ◌||◌, [], true, length, MatchBool};
ghost use Rattle.std.specs.List.{list_any, flat_map};
ghost use Rattle.psdl_members.specs.inner.Below.{AreBelow};
ghost use Rattle.psdl_members.specs.inner.Clashing.{entries_clash, some_clash};
ghost use Rattle.psdl_members.specs.inner.Firsts.{AreFirsts};
ghost use Rattle.psdl_members.specs.inner.Room.{HasRoom, SameRoom};
ghost use Rattle.psdl_members.specs.inner.Rowed.{Entries, row_of};

use crate::entry::Entry;
use crate::firsts::Firsts;
use crate::own::Listings;
use crate::rows::Rows;
use psdl_directory::DeclarationNo;

// Whether an entry comes behind one of its name with another list. Where none of its name came, it is noted.
fn differs(firsts: &mut Firsts, entry: Entry) -> bool
    requires marks { entry.name < length firsts.old.marks }
    requires lists { entry.name < length firsts.old.lists.items }
    ensures room { SameRoom firsts.old firsts.new }
    ensures firsts { (xs : Entries) → AreFirsts firsts.old.marks firsts.old.lists.items xs → MatchBool result (list_any (entries_clash entry) xs ≡ true) (AreFirsts firsts.new.marks firsts.new.lists.items (xs ++ entry ∷ [])) }
{
    if firsts.marks.has(entry.name) {
        return firsts.lists[entry.name] != entry.list;
    }
    firsts.marks.mark(entry.name);
    firsts.lists[entry.name] = entry.list;
    false
}

fn any_differs(firsts: &mut Firsts, entries: &[Entry]) -> bool
    requires marks { AreBelow (length firsts.old.marks) entries.now }
    requires lists { AreBelow (length firsts.old.lists.items) entries.now }
    ensures room { SameRoom firsts.old firsts.new }
    ensures firsts { (xs : Entries) → AreFirsts firsts.old.marks firsts.old.lists.items xs → MatchBool result (some_clash entries_clash (xs ++ entries.now) ≡ true) (AreFirsts firsts.new.marks firsts.new.lists.items (xs ++ entries.now)) }
{
    for entry in entries {
        let differs = differs(firsts, *entry);
        if differs {
            return true;
        }
    }
    false
}

// Whether two that some declarations have in their bodies clash.
fn have_clash(firsts: &mut Firsts, rows: &Rows, declarations: &[DeclarationNo]) -> bool
    requires { HasRoom firsts.old rows.now.names }
    ensures room { SameRoom firsts.old firsts.new }
    ensures clash { result ≡ some_clash entries_clash (flat_map (row_of rows.now) declarations.now) }
{
    firsts.marks.clear();
    for declaration in declarations {
        let differs = any_differs(firsts, rows.of(declaration.index()));
        if differs {
            return true;
        }
    }
    false
}

/// Whether some declarations have two keys, or two factories, in their bodies that clash.
pub(crate) fn lists_clash(
    firsts: &mut Firsts,
    lists: &Listings,
    declarations: &[DeclarationNo],
) -> bool
    requires keys { HasRoom firsts.old lists.now.keys.names }
    requires factories { HasRoom firsts.old lists.now.factories.names }
    ensures room { SameRoom firsts.old firsts.new }
    ensures clash { result ≡ (some_clash entries_clash (flat_map (row_of lists.now.keys) declarations.now) || some_clash entries_clash (flat_map (row_of lists.now.factories) declarations.now)) }
{
    let keys = have_clash(firsts, &lists.keys, declarations);
    if keys {
        return true;
    }
    have_clash(firsts, &lists.factories, declarations)
}
