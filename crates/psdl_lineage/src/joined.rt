// Lists of numbers joined, each number once.
ghost use Rattle.std.specs.Prelude.{◌≡◌, ◌<◌, ◌++◌, ◌∷◌, ◌==◌, ℕ, [], true, length, filter, IfOk, OnOk};
ghost use Rattle.psdl_lineage.specs.Descent.{has, without_repeats};
ghost use Rattle.psdl_lineage.specs.Sources.{is_own};
ghost use Rattle.psdl_lineage.specs.inner.KeptSources.{AreJoined};

use crate::marks::Marks;
use psdl_directory::DeclarationNo;
use pss_base::NoMemory;
use std::alloc::Global;

/// Joins what is not marked yet.
pub(crate) fn join(
    joined: &mut Vec<DeclarationNo>,
    marks: &mut Marks,
    numbers: &[DeclarationNo],
) -> Result<(), NoMemory>
    requires below { (n : ℕ) → has numbers.now n ≡ true → n < length marks.old }
    requires joined { AreJoined marks.old joined.old.items }
    ensures sized { length marks.new ≡ length marks.old }
    ensures joined { OnOk result (AreJoined marks.new joined.new.items) }
    ensures items { OnOk result (joined.new.items ≡ without_repeats (λ a b. a == b) (joined.old.items ++ numbers.now)) }
{
    for number in numbers {
        add(joined, marks, *number)?;
    }
    Ok(())
}

/// Adds a number, unless it is marked.
pub(crate) fn add(
    joined: &mut Vec<DeclarationNo>,
    marks: &mut Marks,
    number: DeclarationNo,
) -> Result<(), NoMemory>
    requires below { number < length marks.old }
    requires joined { AreJoined marks.old joined.old.items }
    ensures sized { length marks.new ≡ length marks.old }
    ensures joined { OnOk result (AreJoined marks.new joined.new.items) }
    ensures items { OnOk result (joined.new.items ≡ without_repeats (λ a b. a == b) (joined.old.items ++ number ∷ [])) }
{
    let index = number.index();
    if marks.has(index) {
        return Ok(());
    }
    marks.mark(index);
    joined.push(number)?;
    Ok(())
}

pub(crate) fn is_own(own: &[bool], number: usize) -> bool
    ensures { result ≡ is_own own.now number }
{
    number < own.len() && own[number]
}

/// Which of these have something of their own.
pub(crate) fn owners(
    alloc: Global,
    own: &[bool],
    numbers: &[usize],
) -> Result<Vec<DeclarationNo>, NoMemory>
    ensures { IfOk result (λ owners. owners.items ≡ filter (is_own own.now) numbers.now) }
{
    let mut owners = Vec::new(alloc);
    for number in numbers {
        if is_own(own, *number) {
            owners.push(DeclarationNo::new(*number))?;
        }
    }
    Ok(owners)
}
