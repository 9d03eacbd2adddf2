// Empty rings go.
ghost use Rattle.std.specs.Prelude.{◌≡◌, ◌∷◌, [], List, Some};
ghost use Rattle.std.specs.FinMap as map;
ghost use Rattle.pss_machine.specs.declared.lock.Resource.{Resource};
ghost use Rattle.pss_base.specs.declared.owner.OwnerNo.{OwnerNo};
ghost use Rattle.lock_table.specs.inner.Links.{IsLinked, IsFound, IsThere, SameNodes, DropsRow, EmptyRows, EmptyCols, col_at};

use crate::asks::look_up;
use crate::links::Links;
use crate::places::{self, FoundPlace};
use crate::tables;
use link_pool::Col;
use pss_base::OwnerNo;
use pss_machine::Resource;

// Takes the row of a resource away, which was found and is empty.
#[inline(always)]
fn remove_place(links: &mut Links, found: FoundPlace)
    requires { map.get links.old.pool.rows found.place.row ≡ Some [] }
    ensures nodes { SameNodes links.old links.new }
    ensures columns { links.new.columns.entries ≡ links.old.columns.entries }
    ensures drops { (resource : Resource) → IsLinked links.old → IsFound links.old resource found → DropsRow links.old links.new resource }
{
    places::remove(&mut links.places, found.at);
    links.pool.remove_row(found.place.row);
}

/// Takes the column of an owner away, which is empty.
pub fn remove_column(links: &mut Links, owner: OwnerNo, col: Col)
    requires linked { IsLinked links.old }
    requires col { col_at links.old owner ≡ Some col }
    requires empty { map.get links.old.pool.cols col ≡ Some [] }
    ensures nodes { SameNodes links.old links.new }
    ensures linked { IsLinked links.new }
    ensures rows { (keys : List Resource) → EmptyRows links.old keys → EmptyRows links.new keys }
    ensures cols { (keys : List OwnerNo) → EmptyCols links.old (owner ∷ keys) → EmptyCols links.new keys }
{
    tables::remove(&mut links.columns, &owner);
    links.pool.remove_col(col);
}

/// Takes the row of a resource that was found away if it is empty, which its place tells.
#[inline(always)]
pub fn drop_empty_row(links: &mut Links, found: FoundPlace)
    requires linked { IsLinked links.old }
    requires there { IsThere links.old found }
    ensures nodes { SameNodes links.old links.new }
    ensures columns { links.new.columns.entries ≡ links.old.columns.entries }
    ensures drops { (resource : Resource) → IsFound links.old resource found → DropsRow links.old links.new resource }
{
    if found.place.locks == 0 {
        remove_place(links, found);
    }
}

/// Takes the row of a resource away where it has one that is empty.
pub fn drop_empty_place(links: &mut Links, resource: &Resource)
    requires { IsLinked links.old }
    ensures nodes { SameNodes links.old links.new }
    ensures drops { DropsRow links.old links.new resource.now }
{
    if let Some(found) = look_up(links, resource) {
        drop_empty_row(links, found);
    }
}

/// Takes the column of an owner away where it has one that is empty.
pub fn drop_empty_column(links: &mut Links, owner: OwnerNo)
    requires { IsLinked links.old }
    ensures nodes { SameNodes links.old links.new }
    ensures linked { IsLinked links.new }
    ensures rows { (keys : List Resource) → EmptyRows links.old keys → EmptyRows links.new keys }
    ensures cols { (keys : List OwnerNo) → EmptyCols links.old (owner ∷ keys) → EmptyCols links.new keys }
{
    if let Some(col) = tables::find(&links.columns, &owner) {
        match links.pool.first_of_col_uncounted(col) {
            Some(_) => {}
            None => remove_column(links, owner, col),
        }
    }
}
