// What declarations have in their bodies, by number.
ghost use Rattle.std.specs.Prelude.{◌≡◌, ◌≤◌, map, length, IfOk};
ghost use Rattle.std.specs.List.{range_with_len};
ghost use Rattle.psdl_directory.specs.Directories.{all_of};
ghost use Rattle.psdl_members.specs.inner.Had.{AreHad, AreListsHad, has_own as has_one};

use crate::contested::contested_rows_of;
use crate::list_kind::ListKind;
use crate::numbers::{Numbers, numbers_of};
use crate::rows::Rows;
use psdl_directory::Directory;
use pss_base::NoMemory;
use std::alloc::Global;

/// The keys and factories that may clash with others.
#[derive(Drop)]
pub(crate) struct Listings {
    pub keys: Rows,
    pub factories: Rows,
}

/// The names of members, and the keys and factories that may clash with others.
#[derive(Drop)]
pub(crate) struct Own {
    pub names: Numbers,
    pub lists: Listings,
}

fn lists_of(alloc: Global, directory: &Directory<'_>) -> Result<Listings, NoMemory>
    ensures { IfOk result (λ l. AreListsHad (all_of directory.now) l) }
{
    let keys = contested_rows_of(alloc, directory, ListKind::Key)?;
    let factories = contested_rows_of(alloc, directory, ListKind::Factory)?;
    Ok(Listings { keys, factories })
}

/// What the declarations of a text have in their bodies.
pub(crate) fn own_of(alloc: Global, directory: &Directory<'_>) -> Result<Own, NoMemory>
    ensures { IfOk result (λ o. AreHad (all_of directory.now) o) }
{
    let names = numbers_of(alloc, directory)?;
    let lists = lists_of(alloc, directory)?;
    Ok(Own { names, lists })
}

fn has_own(own: &Own, declaration: usize) -> bool
    ensures { result ≡ has_one own.now declaration }
{
    let names = own.names.of(declaration).len();
    let keys = own.lists.keys.of(declaration).len();
    let factories = own.lists.factories.of(declaration).len();
    names > 0 || (keys > 0 || factories > 0)
}

/// Which declarations have something of their own.
pub(crate) fn owners(
    alloc: Global,
    directory: &Directory<'_>,
    own: &Own,
) -> Result<Vec<bool>, NoMemory>
    ensures { IfOk result (λ v. v.items ≡ map (has_one own.now) (range_with_len 0 (length (all_of directory.now)))) }
{
    let mut owners = Vec::new(alloc);
    for index in 0..directory.len() {
        let owner = has_own(own, index);
        owners.push(owner)?;
    }
    Ok(owners)
}

fn larger(first: usize, second: usize) -> usize
    ensures first { first ≤ result }
    ensures second { second ≤ result }
{
    if first < second { second } else { first }
}

impl Own {
    ghost use Rattle.psdl_members.specs.inner.Had.{IsMost};

    /// The numbers of all names are less than that.
    pub(crate) fn most_names(&self) -> usize
        ensures { IsMost self.now result }
    {
        let lists = larger(self.lists.keys.names, self.lists.factories.names);
        larger(self.names.names, lists)
    }
}
