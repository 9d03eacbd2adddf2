// The keys, or the factories, of all homes, as they are written.
ghost use Rattle.std.specs.Prelude.{◌≡◌, ◌+◌, ◌≤◌, ℕ, [], length, IfOk};
ghost use Rattle.psdl_directory.specs.Directories.{all_of};
ghost use Rattle.psdl_members.specs.Listings.{listed_views};
ghost use Rattle.psdl_members.specs.inner.Flat.{flat, begins};
ghost use Rattle.psdl_members.specs.inner.Listing.{own_lists};
ghost use Rattle.psdl_members.specs.inner.Clashing.{AreNumberedBy, ClashAlike};
ghost use Rattle.psdl_members.specs.inner.Rowed.{row_of};

use crate::entries::{Numbering, entries_of};
use crate::list_kind::ListKind;
use crate::list_numbers::ListNumbers;
use crate::listed::Listed;
use crate::own_lists::add_lists;
use crate::rows::Rows;
use psdl_directory::{DeclarationNo, Directory, Spellings};
use pss_base::NoMemory;
use std::alloc::Global;

// Those in all bodies, and where those of each declaration begin.
#[derive(Drop)]
struct Written<'d> {
    lists: Vec<Listed<'d>>,
    starts: Vec<usize>,
}

fn all_lists<'d>(
    alloc: Global,
    directory: &Directory<'d>,
    kind: ListKind,
) -> Result<Written<'d>, NoMemory>
    ensures lists { IfOk result (λ w. listed_views w.lists.items ≡ flat (own_lists kind (all_of directory.now)) (length (all_of directory.now))) }
    ensures starts { IfOk result (λ w. w.starts.items ≡ begins (own_lists kind (all_of directory.now)) (length (all_of directory.now) + 1)) }
{
    let mut lists = Vec::new(alloc);
    let mut starts = Vec::new(alloc);
    for index in 0..directory.len() {
        starts.push(lists.len())?;
        add_lists(&mut lists, kind, directory.what(DeclarationNo::new(index)))?;
    }
    starts.push(lists.len())?;
    Ok(Written { lists, starts })
}

// The numbers are of no use behind this: which clash with which is all that is asked.
fn numbered(alloc: Global, written: Written<'_>) -> Result<Rows, NoMemory>
    ensures clash { IfOk result (λ r. AreNumberedBy (listed_views written.entry.lists.items) written.entry.starts.items r) }
    ensures starts { IfOk result (λ r. r.starts.items ≡ written.entry.starts.items) }
{
    let mut numbering = Numbering {
        spellings: Spellings::new(alloc),
        lists: ListNumbers::new(alloc),
    };
    let entries = entries_of(alloc, &mut numbering, &written.lists)?;
    Ok(Rows {
        entries,
        starts: written.starts,
        names: numbering.spellings.len(),
    })
}

/// The keys, or the factories, that declarations have in their bodies, by number.
pub(crate) fn rows_of(
    alloc: Global,
    directory: &Directory<'_>,
    kind: ListKind,
) -> Result<Rows, NoMemory>
    ensures clash { IfOk result (λ r. ClashAlike kind (all_of directory.now) r) }
    ensures past { IfOk result (λ r. (n : ℕ) → length (all_of directory.now) ≤ n → row_of r n ≡ []) }
{
    let written = all_lists(alloc, directory, kind)?;
    let rows = numbered(alloc, written)?;
    Ok(rows)
}
