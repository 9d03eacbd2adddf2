// Changes are noted for the next checkpoint.
ghost use Rattle.std.specs.Prelude.{◌≡◌, ◌++◌, ◌-◌, ◌≤◌, IfOk, OnOk, length};
ghost use Rattle.std.specs.List.{AllByRecursion};
ghost use Rattle.page_format.specs.Objects.{IsRightPut};

use page_store::Pages;
use pss_base::{NoMemory, Put, Puts};
use std::alloc::Global;

/// A copy of a change.
pub fn copy_put(put: &Put) -> Result<Put, NoMemory>
    ensures { IfOk result (λ copy. copy ≡ put.now) }
{
    let bytes = match &put.bytes {
        Some(bytes) => Some(bytes.copy()?),
        None => None,
    };
    Ok(Put {
        home: put.home,
        serial: put.serial,
        bytes,
    })
}

/// A copy of changes.
pub fn copy_puts(alloc: Global, puts: &[Put]) -> Result<Puts, NoMemory>
    ensures { IfOk result (λ copy. copy ≡ puts.now) }
{
    let mut copy = Puts::new(alloc);
    copy.reserve(puts.len())?;
    for put in puts {
        copy.push(copy_put(put)?)?;
    }
    Ok(copy)
}

/// Puts changes behind others, without a copy.
pub fn append_puts(puts: &mut Puts, more: Puts) -> Result<(), NoMemory>
    ensures { OnOk result (puts.new ≡ puts.old ++ more) }
{
    for put in more.into_vec() {
        puts.push(put)?;
    }
    Ok(())
}

/// Notes changes for the next checkpoint, for which there is room. It takes no memory.
pub fn note_all(pages: &mut Pages, puts: Puts)
    requires room { length puts ≤ pages.old.room }
    requires right { AllByRecursion IsRightPut puts }
    ensures { pages.new ≡ record pages.old { noted = pages.old.noted ++ puts; room = pages.old.room - length puts } }
{
    for put in puts.into_vec() {
        pages.note_reserved(put);
    }
}
