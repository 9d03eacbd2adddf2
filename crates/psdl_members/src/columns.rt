// The entries of which declarations are told.
ghost use Rattle.std.specs.Prelude.{◌≡◌, filter, IfOk};
ghost use Rattle.psdl_members.specs.inner.Contested.{is_first_of as first_of, is_later as later};
ghost use Rattle.psdl_members.specs.inner.Heirs.{AreColumns};

use crate::contested::{Lists, lists_of_names};
use crate::entry::Entry;
use crate::rows::Rows;
use pss_base::NoMemory;
use std::alloc::Global;

fn is_first_of(lists: Lists, list: usize) -> bool
    ensures { result ≡ first_of lists list }
{
    match lists {
        Lists::Nothing => false,
        Lists::One(first) => first == list,
        Lists::Several(first) => first == list,
    }
}

fn is_later(lists: &[Lists], entry: Entry) -> bool
    ensures { result ≡ later lists.now entry }
{
    match lists.get(entry.name) {
        Some(found) => !is_first_of(*found, entry.list),
        None => true,
    }
}

fn later_ones(alloc: Global, lists: &[Lists], entries: &[Entry]) -> Result<Vec<Entry>, NoMemory>
    ensures { IfOk result (λ v. v.items ≡ filter (later lists.now) entries.now) }
{
    let mut kept = Vec::new(alloc);
    for entry in entries {
        if is_later(lists, *entry) {
            kept.push(*entry)?;
        }
    }
    Ok(kept)
}

/// The entries whose lists are not the first that came with their names: of two that clash one is such.
pub(crate) fn columns_of(alloc: Global, rows: &Rows) -> Result<Vec<Entry>, NoMemory>
    ensures { IfOk result (λ v. AreColumns rows.now.entries.items v.items) }
{
    let lists = lists_of_names(alloc, rows)?;
    let columns = later_ones(alloc, &lists, &rows.entries)?;
    Ok(columns)
}
