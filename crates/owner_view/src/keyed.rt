// The keys of objects with their bytes.
ghost use Rattle.std.specs.Prelude.{◌≡◌, IfOk};
ghost use Rattle.type_layout.specs.Sound.{IsSoundSchema};
ghost use Rattle.owner_view.specs.Seen.{IsShown};
ghost use Rattle.owner_view.specs.Keyed.{all_keyed};

use crate::seen::Seen;
use pss_base::{Bytes, NoMemory};
use std::alloc::Global;
use storage_home::{keys_of_octets, keys_of_record};
use type_layout::{KeyNo, Schema};

/// All keys of an object.
#[inline(always)]
pub fn keyed_of(
    alloc: Global,
    schema: &Schema,
    seen: Seen<'_>,
) -> Result<Vec<(KeyNo, Bytes)>, NoMemory>
    requires sound { IsSoundSchema schema.now }
    requires shown { IsShown schema.now seen }
    ensures { IfOk result (λ pairs. (s : IsShown schema.now seen.entry) → pairs.items ≡ all_keyed schema.now s.object) }
{
    match seen {
        Seen::Stored(home, bytes) => Ok(keys_of_octets(alloc, schema, home, bytes)?.into_vec()),
        Seen::Own(object) => Ok(keys_of_record(
            alloc,
            schema,
            object.home,
            &object.record,
        )?.into_vec()),
    }
}
