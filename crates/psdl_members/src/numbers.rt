// The names of members by number.
ghost use Rattle.std.specs.Prelude.{◌≡◌, ◌+◌, map, length, Some, IfOk};
ghost use Rattle.psdl_directory.specs.Directories.{all_of};
ghost use Rattle.psdl_directory.specs.Spelled.{Keeps};
ghost use Rattle.psdl_members.specs.Bodies.{member_views, own_members};
ghost use Rattle.psdl_members.specs.inner.Flat.{flat, begins};
ghost use Rattle.psdl_members.specs.inner.Noted.{Within};
ghost use Rattle.psdl_members.specs.inner.Numbered.{small_number, AreNumbered, AreNumberedAs};

use crate::member::Member;
use crate::own_members::add_own;
use crate::pieces::piece;
use psdl_directory::{DeclarationNo, Directory, Spelling, Spellings};
use pss_base::NoMemory;
use std::alloc::Global;

// The members in all bodies, and where those of each declaration begin.
#[derive(Drop)]
struct Bodies<'d> {
    members: Vec<Member<'d>>,
    starts: Vec<usize>,
}

/// The numbers of the names of all members in small letters, and where those of each declaration begin.
#[derive(Drop)]
pub(crate) struct Numbers {
    pub numbers: Vec<usize>,
    pub starts: Vec<usize>,
    /// The numbers of all names are less than that.
    pub names: usize,
    ghost below: { Within names numbers.items },
}

fn all_bodies<'d>(alloc: Global, directory: &Directory<'d>) -> Result<Bodies<'d>, NoMemory>
    ensures members { IfOk result (λ b. member_views b.members.items ≡ flat (own_members (all_of directory.now)) (length (all_of directory.now))) }
    ensures starts { IfOk result (λ b. b.starts.items ≡ begins (own_members (all_of directory.now)) (length (all_of directory.now) + 1)) }
{
    let mut members = Vec::new(alloc);
    let mut starts = Vec::new(alloc);
    for index in 0..directory.len() {
        starts.push(members.len())?;
        add_own(
            &mut members,
            index,
            directory.what(DeclarationNo::new(index)),
        )?;
    }
    starts.push(members.len())?;
    Ok(Bodies { members, starts })
}

fn small_numbers(
    alloc: Global,
    spellings: &mut Spellings,
    members: &[Member<'_>],
) -> Result<Vec<usize>, NoMemory>
    ensures numbers { IfOk result (λ v. map (λ n. Some n) v.items ≡ map (small_number spellings.new) (member_views members.now)) }
    ensures kept { Keeps spellings.old spellings.new }
{
    let mut numbers = Vec::new(alloc);
    for member in members {
        let number = Spelling::Lower.note(alloc, spellings, member.name.name.as_slice())?;
        numbers.push(number.index())?;
    }
    Ok(numbers)
}

// The spellings are of no use behind this: which names are equal is all that is asked.
fn of_bodies(alloc: Global, bodies: Bodies<'_>) -> Result<Numbers, NoMemory>
    ensures { IfOk result (λ n. AreNumberedAs (member_views bodies.entry.members.items) bodies.entry.starts.items n.numbers.items n.starts.items) }
{
    let mut spellings = Spellings::new(alloc);
    let numbers = small_numbers(alloc, &mut spellings, &bodies.members)?;
    Ok(Numbers {
        numbers,
        starts: bodies.starts,
        names: spellings.len(),
    })
}

/// The numbers of the names of all members of a text.
pub(crate) fn numbers_of(alloc: Global, directory: &Directory<'_>) -> Result<Numbers, NoMemory>
    ensures { IfOk result (λ n. AreNumbered (all_of directory.now) n.numbers.items n.starts.items) }
{
    let bodies = all_bodies(alloc, directory)?;
    let numbers = of_bodies(alloc, bodies)?;
    Ok(numbers)
}

impl Numbers {
    ghost use Rattle.std.specs.Prelude.{◌≡◌};
    ghost use Rattle.psdl_members.specs.inner.Flat.{piece_of};

    /// The numbers of a declaration.
    pub(crate) fn of(&self, declaration: usize) -> &[usize]
        ensures { result.now ≡ piece_of self.now.starts.items declaration self.now.numbers.items }
    {
        piece(&self.numbers, &self.starts, declaration)
    }
}
