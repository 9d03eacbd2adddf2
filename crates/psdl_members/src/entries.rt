// Keys and factories are numbered.
ghost use Rattle.std.specs.Prelude.{◌≡◌, Some, IfOk, OnOk};
ghost use Rattle.psdl_directory.specs.Spelled.{Keeps};
ghost use Rattle.psdl_lineage.specs.Descent.{names_of};
ghost use Rattle.psdl_members.specs.Listings.{listed_view, listed_views, identifiers_in};
ghost use Rattle.psdl_members.specs.inner.Entries.{AreSpelled, entry_of, KeepsEntries, AreEntries};

use crate::entry::Entry;
use crate::list_numbers::ListNumbers;
use crate::listed::Listed;
use crate::spelled::add_numbers;
use psdl_directory::{Spelling, Spellings};
use pss_base::NoMemory;
use std::alloc::Global;

/// The numbers of spellings, and of lists of them.
#[derive(Drop)]
pub(crate) struct Numbering {
    pub spellings: Spellings,
    pub lists: ListNumbers,
}

fn list_of(
    alloc: Global,
    spellings: &mut Spellings,
    listed: &Listed<'_>,
) -> Result<Vec<usize>, NoMemory>
    ensures spelled { IfOk result (λ v. AreSpelled spellings.new v.items (names_of (identifiers_in listed.now))) }
    ensures kept { OnOk result (Keeps spellings.old spellings.new) }
{
    let mut numbers = Vec::new(alloc);
    add_numbers(alloc, &mut numbers, spellings, listed.first)?;
    add_numbers(alloc, &mut numbers, spellings, listed.others)?;
    Ok(numbers)
}

fn entry_of(
    alloc: Global,
    numbering: &mut Numbering,
    listed: &Listed<'_>,
) -> Result<Entry, NoMemory>
    ensures entry { IfOk result (λ e. entry_of numbering.new (listed_view listed.now) ≡ Some e) }
    ensures kept { OnOk result (KeepsEntries numbering.old numbering.new) }
{
    let list = list_of(alloc, &mut numbering.spellings, listed)?;
    let number = numbering.lists.note(list)?;
    let name = Spelling::Lower.note(alloc, &mut numbering.spellings, listed.name.name.as_slice())?;
    Ok(Entry {
        name: name.index(),
        list: number,
    })
}

/// Keys or factories by number.
pub(crate) fn entries_of(
    alloc: Global,
    numbering: &mut Numbering,
    lists: &[Listed<'_>],
) -> Result<Vec<Entry>, NoMemory>
    ensures { IfOk result (λ v. AreEntries numbering.new v.items (listed_views lists.now)) }
{
    let mut entries = Vec::new(alloc);
    for listed in lists {
        let entry = entry_of(alloc, numbering, listed)?;
        entries.push(entry)?;
    }
    Ok(entries)
}
