// The bodies of a journal are made of the objects, one after the other.
ghost use Rattle.std.specs.Prelude.{ℕ, ◌≡◌, ◌<◌, Err, IfOk, IfSome, IsNone};
ghost use Rattle.std.specs.List.{AllByRecursion};
ghost use Rattle.pss_catalog.specs.Catalog.{Catalog};
ghost use Rattle.storage_home.specs.Kept.{IsKept};
ghost use Rattle.redo_journal.specs.Journal.{journal_end, journal_start};
ghost use Rattle.page_format.specs.Objects.{IsRightPut};
ghost use Rattle.pss_recovery.specs.Bodies.{Spells};
ghost use Rattle.pss_recovery.specs.Noted.{AreNoted};
ghost use Rattle.pss_recovery.specs.Replaying.{AreReplayed, IsChangeDamage, IsChanged, IsRight, gate_behind};
ghost use Rattle.pss_recovery.specs.inner.Remaking.{IsMadeOf};
ghost use Rattle.pss_recovery.specs.declared.replaying.BodyStop.TheVariants.{Wrong as WrongBody};

use crate::body::Body;
use crate::decoding::decode_body;
use crate::noting::{append_puts, copy_puts};
use crate::remaking::apply_body;
use pss_base::{Bytes, NoMemory, Puts};
use redo_journal::{JOURNAL_START, gate_after};
use std::alloc::Global;
use storage_home::Homes;
use type_layout::Schema;

/// What the bodies of a journal made of a store.
#[derive(Drop)]
pub struct Replayed {
    /// The least serial that no object was given.
    pub next: u64,
    /// All changes in their order, for the next checkpoint.
    pub puts: Puts,
}

/// Why the bodies of a journal are not made.
#[derive(Clone, Copy, Debug, PartialEq, Eq, Drop)]
pub enum BodyStop {
    /// The first body that is wrong stands behind this gate.
    Wrong(u64),
    /// There was no memory. It may come in place of any other answer.
    NoMemory,
}

// Makes what a body says, and answers it with a copy of its changes; none where it may not come over the objects.
fn make_body(
    alloc: Global,
    schema: &Schema,
    homes: &mut Homes,
    body: Body,
    next: u64,
) -> Result<Option<Body>, NoMemory>
    requires { (M : Catalog) × IsKept schema.now M homes.old }
    ensures same { IfOk result (λ made. IfSome made (λ made. made ≡ body)) }
    ensures made { IfOk result (λ made. IfSome made (λ _. (M : Catalog) → IsKept schema.now M homes.old → IsMadeOf schema.now M next body homes.new)) }
    ensures none { IfOk result (λ made. IsNone made → (M N : Catalog) → IsKept schema.now M homes.old → IsChanged schema.now M next body N → ⊥) }
{
    let puts = copy_puts(alloc, body.puts.as_slice())?;
    let last = body.next;
    match apply_body(alloc, schema, homes, body, next) {
        Ok(true) => Ok(Some(Body { next: last, puts })),
        Ok(false) => Ok(None),
        Err(NoMemory) => Err(NoMemory),
    }
}

// Makes the body that octets spell, and answers it; none where they spell none that may come over the objects.
fn replay_body(
    alloc: Global,
    schema: &Schema,
    homes: &mut Homes,
    octets: &[u8],
    next: u64,
) -> Result<Option<Body>, NoMemory>
    requires { (M : Catalog) × IsKept schema.now M homes.old }
    ensures spells { IfOk result (λ body. IfSome body (Spells octets.now)) }
    ensures made { IfOk result (λ body. IfSome body (λ body. (M : Catalog) → IsKept schema.now M homes.old → IsMadeOf schema.now M next body homes.new)) }
    ensures none { IfOk result (λ body. IsNone body → (M N : Catalog) (last : ℕ) → IsKept schema.now M homes.old → IsRight schema.now M next octets.now N last → ⊥) }
{
    match decode_body(alloc, octets) {
        Ok(Some(body)) => make_body(alloc, schema, homes, body, next),
        Ok(None) => Ok(None),
        Err(NoMemory) => Err(NoMemory),
    }
}

/// Makes the bodies of a journal of the objects, one after the other, up to the first that may not come over those before it.
/// Keys are found by hash. After an `Err` the objects are those of some catalog, of which nothing is told.
pub fn replay_bodies(
    alloc: Global,
    schema: &Schema,
    homes: &mut Homes,
    bodies: &[Bytes],
    next: u64,
) -> Result<Replayed, BodyStop>
    requires kept { (M : Catalog) × IsKept schema.now M homes.old }
    ensures replayed { IfOk result (λ replayed. (M : Catalog) → IsKept schema.now M homes.old → (N : Catalog) × AreReplayed schema.now M next bodies.now N replayed.next × IsKept schema.now N homes.new) }
    ensures noted { IfOk result (λ replayed. AreNoted bodies.now replayed.puts) }
    ensures right { IfOk result (λ replayed. AllByRecursion IsRightPut replayed.puts) }
    ensures damaged { (at : ℕ) → result ≡ Err (WrongBody at) → gate_behind journal_start bodies.now < journal_end → (M : Catalog) → IsKept schema.now M homes.old → IsChangeDamage schema.now M next bodies.now at }
{
    let mut gate = u64::from(JOURNAL_START);
    let mut last = next;
    let mut puts = Puts::new(alloc);
    for octets in bodies {
        let body = match replay_body(alloc, schema, homes, octets.as_slice(), last) {
            Ok(Some(body)) => body,
            Ok(None) => return Err(BodyStop::Wrong(gate)),
            Err(NoMemory) => return Err(BodyStop::NoMemory),
        };
        gate = gate_after(gate, octets.as_slice());
        last = body.next;
        let Ok(()) = append_puts(&mut puts, body.puts) else {
            return Err(BodyStop::NoMemory);
        };
    }
    Ok(Replayed { next: last, puts })
}
