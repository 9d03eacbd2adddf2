// Names that come with more than one list.
ghost use Rattle.std.specs.Prelude.{◌≡◌, ◌<◌, ◌≤◌, ◌++◌, ◌∷◌, ℕ, List, [], length, filter, true, IfOk, OnOk};
ghost use Rattle.psdl_directory.specs.Directories.{all_of};
ghost use Rattle.std.specs.List.{list_all, flat_map};
ghost use Rattle.psdl_members.specs.inner.Contested.{covers, are_several as several, is_covered, is_contested as contested};
ghost use Rattle.psdl_members.specs.inner.Below.{AreBelow};
ghost use Rattle.psdl_members.specs.inner.Clashing.{some_clash, entries_clash, ClashAlike};
ghost use Rattle.psdl_members.specs.inner.Rowed.{Entries, row_of};

use crate::entry::Entry;
use crate::list_kind::ListKind;
use crate::rows::Rows;
use crate::written::rows_of;
use psdl_directory::Directory;
use pss_base::NoMemory;
use std::alloc::Global;

/// The lists that came with a name so far, by the first of them.
#[derive(Clone, Copy)]
pub(crate) enum Lists {
    Nothing,
    One(usize),
    Several(usize),
}

fn more_lists(lists: Lists, list: usize) -> Lists
    ensures it { covers result list ≡ true }
    ensures others { (other : ℕ) → covers lists other ≡ true → covers result other ≡ true }
{
    match lists {
        Lists::Nothing => Lists::One(list),
        Lists::One(first) => {
            if first == list {
                Lists::One(first)
            } else {
                Lists::Several(first)
            }
        }
        Lists::Several(first) => Lists::Several(first),
    }
}

fn add(lists: &mut Vec<Lists>, entry: Entry)
    requires { entry.name < length lists.old.items }
    ensures sized { length lists.new.items ≡ length lists.old.items }
    ensures covered { (es : Entries) → list_all (is_covered lists.old.items) es ≡ true → list_all (is_covered lists.new.items) (es ++ entry ∷ []) ≡ true }
{
    let more = more_lists(lists[entry.name], entry.list);
    lists[entry.name] = more;
}

fn add_each(lists: &mut Vec<Lists>, entries: &[Entry])
    requires { AreBelow (length lists.old.items) entries.now }
    ensures { list_all (is_covered lists.new.items) entries.now ≡ true }
{
    for entry in entries {
        add(lists, *entry);
    }
}

/// The lists of each name.
pub(crate) fn lists_of_names(alloc: Global, rows: &Rows) -> Result<Vec<Lists>, NoMemory>
    ensures { IfOk result (λ v. list_all (is_covered v.items) rows.now.entries.items ≡ true) }
{
    let mut lists = vec![in alloc; Lists::Nothing; rows.names]?;
    add_each(&mut lists, &rows.entries);
    Ok(lists)
}

fn are_several(lists: Lists) -> bool
    ensures { result ≡ several lists }
{
    match lists {
        Lists::Nothing => false,
        Lists::One(_) => false,
        Lists::Several(_) => true,
    }
}

fn is_contested(lists: &[Lists], entry: Entry) -> bool
    ensures { result ≡ contested lists.now entry }
{
    match lists.get(entry.name) {
        Some(found) => are_several(*found),
        None => false,
    }
}

fn add_contested(kept: &mut Vec<Entry>, lists: &[Lists], entries: &[Entry]) -> Result<(), NoMemory>
    ensures { OnOk result (kept.new.items ≡ kept.old.items ++ filter (contested lists.now) entries.now) }
{
    for entry in entries {
        if is_contested(lists, *entry) {
            kept.push(*entry)?;
        }
    }
    Ok(())
}

fn contested_rows(alloc: Global, rows: &Rows, lists: &[Lists]) -> Result<Rows, NoMemory>
    ensures { IfOk result (λ r. (n : ℕ) → row_of r n ≡ filter (contested lists.now) (row_of rows.now n)) }
{
    let mut entries = Vec::new(alloc);
    let mut starts = Vec::new(alloc);
    for index in 0..rows.len() {
        starts.push(entries.len())?;
        add_contested(&mut entries, lists, rows.of(index))?;
    }
    starts.push(entries.len())?;
    Ok(Rows {
        entries,
        starts,
        names: rows.names,
    })
}

// The rows without those that cannot clash, whatever the lines of descent are: no other list comes with their name.
fn without_others(alloc: Global, rows: &Rows) -> Result<Rows, NoMemory>
    ensures clash { IfOk result (λ r. (ns : List ℕ) → some_clash entries_clash (flat_map (row_of r) ns) ≡ some_clash entries_clash (flat_map (row_of rows.now) ns)) }
    ensures none { IfOk result (λ r. (n : ℕ) → row_of rows.now n ≡ [] → row_of r n ≡ []) }
{
    let lists = lists_of_names(alloc, rows)?;
    let kept = contested_rows(alloc, rows, &lists)?;
    Ok(kept)
}

/// The keys, or the factories, that declarations have in their bodies, as far as they may clash with others of the text.
pub(crate) fn contested_rows_of(
    alloc: Global,
    directory: &Directory<'_>,
    kind: ListKind,
) -> Result<Rows, NoMemory>
    ensures clash { IfOk result (λ r. ClashAlike kind (all_of directory.now) r) }
    ensures past { IfOk result (λ r. (n : ℕ) → length (all_of directory.now) ≤ n → row_of r n ≡ []) }
{
    let rows = rows_of(alloc, directory, kind)?;
    let kept = without_others(alloc, &rows)?;
    Ok(kept)
}
