// What is needed, one by one.
ghost use Rattle.std.specs.Prelude.{◌≡◌, ◌++◌, ◌∷◌, [], map, length, OnOk};
ghost use Rattle.pss_machine.specs.Needs.{object_need, key_need, extent_need, targets};
ghost use Rattle.owner_view.specs.Keyed.{key_needs};
ghost use Rattle.owner_view.specs.Steps.{whole_needs, set_needs, differing, with_reads};

use pss_base::{Bytes, NoMemory, Pid};
use pss_machine::{Level, Mode, Need, Needs, Resource};
use type_layout::{HomeNo, KeyNo};

pub fn need_object(needs: &mut Needs, mode: Mode, serial: u64) -> Result<(), NoMemory>
    ensures { OnOk result (needs.new ≡ needs.old ++ object_need mode serial ∷ []) }
{
    needs.push(Need {
        resource: Resource::Object(serial),
        mode,
    })
}

pub fn need_extent(needs: &mut Needs, mode: Mode, home: HomeNo) -> Result<(), NoMemory>
    ensures { OnOk result (needs.new ≡ needs.old ++ extent_need mode home ∷ []) }
{
    needs.push(Need {
        resource: Resource::Extent(home.0),
        mode,
    })
}

pub fn need_key(needs: &mut Needs, mode: Mode, key: KeyNo, bytes: &Bytes) -> Result<(), NoMemory>
    ensures { OnOk result (needs.new ≡ needs.old ++ key_need mode key bytes.now ∷ []) }
{
    needs.push(Need {
        resource: Resource::Key(key.0, bytes.copy()?),
        mode,
    })
}

/// Keys that are written.
#[inline(always)]
pub fn need_keys(needs: &mut Needs, pairs: &[(KeyNo, Bytes)]) -> Result<(), NoMemory>
    ensures { OnOk result (needs.new ≡ needs.old ++ key_needs pairs.now) }
{
    for (key, bytes) in pairs {
        need_key(needs, Mode::X, *key, bytes)?;
    }
    Ok(())
}

/// Objects that are referred to.
pub fn need_targets(needs: &mut Needs, pids: &[Pid]) -> Result<(), NoMemory>
    ensures { OnOk result (needs.new ≡ needs.old ++ targets pids.now) }
{
    for pid in pids {
        need_object(needs, Mode::S, pid.serial)?;
    }
    Ok(())
}

/// Extents that are read.
pub fn need_extents(needs: &mut Needs, homes: &[HomeNo]) -> Result<(), NoMemory>
    ensures { OnOk result (needs.new ≡ needs.old ++ map (extent_need Mode.S) homes.now) }
{
    for home in homes {
        need_extent(needs, Mode::S, *home)?;
    }
    Ok(())
}

/// An object that comes to be or goes, with its home and its keys.
#[inline(always)]
pub fn need_whole(
    needs: &mut Needs,
    serial: u64,
    home: HomeNo,
    pairs: &[(KeyNo, Bytes)],
) -> Result<(), NoMemory>
    ensures { OnOk result (needs.new ≡ needs.old ++ whole_needs serial home pairs.now) }
{
    need_object(needs, Mode::X, serial)?;
    need_keys(needs, pairs)?;
    need_extent(needs, Mode::M, home)
}

/// An object that is set, with the keys that it had and those that it has.
pub fn need_set(
    needs: &mut Needs,
    serial: u64,
    had: &[(KeyNo, Bytes)],
    has: &[(KeyNo, Bytes)],
) -> Result<(), NoMemory>
    requires { length had.now ≡ length has.now }
    ensures { OnOk result (needs.new ≡ needs.old ++ set_needs serial had.now has.now) }
{
    need_object(needs, Mode::X, serial)?;
    need_changed(needs, had, has)?;
    need_changed(needs, has, had)
}

// The keys whose bytes are others in the other list.
fn need_changed(
    needs: &mut Needs,
    pairs: &[(KeyNo, Bytes)],
    others: &[(KeyNo, Bytes)],
) -> Result<(), NoMemory>
    requires { length pairs.now ≡ length others.now }
    ensures { OnOk result (needs.new ≡ needs.old ++ key_needs (differing pairs.now others.now)) }
{
    for place in 0..pairs.len() {
        need_if_changed(needs, &pairs[place], &others[place])?;
    }
    Ok(())
}

fn need_if_changed(
    needs: &mut Needs,
    pair: &(KeyNo, Bytes),
    other: &(KeyNo, Bytes),
) -> Result<(), NoMemory>
    ensures { OnOk result (needs.new ≡ needs.old ++ key_needs (differing (pair.now ∷ []) (other.now ∷ []))) }
{
    if pair.1 != other.1 {
        need_key(needs, Mode::X, pair.0, &pair.1)?;
    }
    Ok(())
}

/// Objects that are referred to, which a serializable owner reads.
pub fn need_reads(needs: &mut Needs, level: Level, pids: &[Pid]) -> Result<(), NoMemory>
    ensures { OnOk result (needs.new ≡ with_reads level needs.old (targets pids.now)) }
{
    match level {
        Level::Serializable => need_targets(needs, pids),
        Level::ReadCommitted => Ok(()),
        Level::Basic => Ok(()),
    }
}
