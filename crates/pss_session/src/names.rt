// The numbers of sessions by name.
ghost use Rattle.std.specs.Prelude.{◌≡◌, ◌<◌, [], Some, None, OnOk};
ghost use Rattle.indexmap.specs.IndexMap.{spare};
ghost use Rattle.pss_session.specs.inner.Names.{number_at, Turns};

use indexmap::IndexMap;
use pss_base::{NoMemory, SessionNo};
use std::alloc::Global;
use std::hash::BuildHasherDefault;
use table_hash::NumberHasher;

pub type Names = IndexMap<Vec<u8>, SessionNo, BuildHasherDefault<NumberHasher>>;

pub fn empty(alloc: Global) -> Names
    ensures { result.entries ≡ [] }
{
    IndexMap::with_hasher(alloc, BuildHasherDefault::new())
}

/// The number behind a name, where there is one.
pub fn read(names: &Names, name: &[u8]) -> Option<SessionNo>
    ensures { result ≡ number_at names.now.entries name.now }
{
    names.get(name).copied()
}

/// Makes room for one more. Without memory the names are as before.
pub fn reserve(names: &mut Names) -> Result<(), NoMemory>
    ensures entries { names.new.entries ≡ names.old.entries }
    ensures ok { OnOk result (0 < spare names.new) }
{
    names.reserve(1)?;
    Ok(())
}

/// Puts a number behind a name, for which there is room. It takes no memory.
pub fn put(names: &mut Names, name: Vec<u8>, number: SessionNo)
    requires { 0 < spare names.old }
    ensures { Turns names.old.entries names.new.entries name.items (Some number) }
{
    match names.insert(name, number) {
        Ok(_) => {}
        Err(_) => unreachable!(),
    }
}

/// Takes a name out.
pub fn remove(names: &mut Names, name: &[u8])
    ensures { Turns names.old.entries names.new.entries name.now None }
{
    let _ = names.swap_remove(name);
}
