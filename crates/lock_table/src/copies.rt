// Copies of resources.
ghost use Rattle.std.specs.Prelude.{◌≡◌, IfOk};
ghost use Rattle.lock_table.specs.Standing.{lock_of};

use crate::links::Lock;
use pss_base::{NoMemory, OwnerNo};
use pss_machine::{Need, Resource};

/// The same resource once more. Only the bytes of a key take memory.
pub fn copy(resource: &Resource) -> Result<Resource, NoMemory>
    ensures { IfOk result (λ copy. copy ≡ resource.now) }
{
    match resource {
        Resource::Object(serial) => Ok(Resource::Object(*serial)),
        Resource::Key(key, bytes) => Ok(Resource::Key(*key, bytes.copy()?)),
        Resource::Extent(home) => Ok(Resource::Extent(*home)),
    }
}

/// The lock of an owner that has what it needs.
pub fn lock_for(owner: OwnerNo, need: &Need) -> Result<Lock, NoMemory>
    ensures { IfOk result (λ lock. lock ≡ lock_of owner need.now) }
{
    Ok(Lock {
        owner,
        resource: copy(&need.resource)?,
        mode: need.mode,
    })
}
