// The line that is spoken of a store that is refused.
ghost use Rattle.std.specs.Prelude.{◌≡◌, ◌++◌, IfOk, OnOk};
ghost use Rattle.store_refusals.specs.Lines.{damaged_line, kind_text, refused_line, shape_line};

use crate::refusals::StoreRefusal;
use itoa::Buffer;
use pss_base::{Bytes, DamageKind, NoMemory};
use std::alloc::Global;
use type_layout::HomeNo;

/// What is spoken where a store is to be made in a file that has octets.
pub const NOT_EMPTY: &[u8] = b"store NotEmpty\n";

const NOT_A_STORE: &[u8] = b"store NotAStore\n";

fn append_kind(line: &mut Bytes, kind: DamageKind) -> Result<(), NoMemory>
    ensures { OnOk result (line.new ≡ line.old ++ kind_text kind) }
{
    match kind {
        DamageKind::Root => line.extend(b"Root"),
        DamageKind::Page => line.extend(b"Page"),
        DamageKind::Entry => line.extend(b"Entry"),
        DamageKind::Serial => line.extend(b"Serial"),
        DamageKind::Record => line.extend(b"Record"),
        DamageKind::Ref => line.extend(b"Ref"),
        DamageKind::Key => line.extend(b"Key"),
        DamageKind::Packing => line.extend(b"Packing"),
        DamageKind::Total => line.extend(b"Total"),
        DamageKind::Journal => line.extend(b"Journal"),
        DamageKind::Change => line.extend(b"Change"),
    }
}

fn print_shape(alloc: Global, home: HomeNo) -> Result<Bytes, NoMemory>
    ensures { IfOk result (λ line. line ≡ shape_line home.0) }
{
    let mut line = Bytes::from_slice(alloc, b"store ShapeDiffers ")?;
    line.extend(Buffer::new().format(home.0).as_bytes())?;
    line.push(b'\n')?;
    Ok(line)
}

fn print_damage(alloc: Global, at: u64, kind: DamageKind) -> Result<Bytes, NoMemory>
    ensures { IfOk result (λ line. line ≡ damaged_line at kind) }
{
    let mut line = Bytes::from_slice(alloc, b"store Damaged ")?;
    line.extend(Buffer::new().format(at).as_bytes())?;
    line.push(b' ')?;
    append_kind(&mut line, kind)?;
    line.push(b'\n')?;
    Ok(line)
}

/// The line that is spoken of a store that is refused, with its line feed: `store NotAStore`, `store ShapeDiffers HOME` or
/// `store Damaged AT KIND`.
pub fn print_refusal(alloc: Global, why: StoreRefusal) -> Result<Bytes, NoMemory>
    ensures { IfOk result (λ line. line ≡ refused_line why) }
{
    match why {
        StoreRefusal::NotAStore => Bytes::from_slice(alloc, NOT_A_STORE),
        StoreRefusal::ShapeDiffers(home) => print_shape(alloc, home),
        StoreRefusal::Damaged(at, kind) => print_damage(alloc, at, kind),
    }
}
