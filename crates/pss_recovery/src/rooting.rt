// The current root of a store is read, and its shape is tested.
ghost use Rattle.std.specs.Prelude.{◌≡◌, List, ℕ, Err, IfErr, IfOk, IfSome};
ghost use Rattle.pss_base.specs.Causes.{HasCauseIf};
ghost use Rattle.pss_disk.specs.Reading.{OnlyReads};
ghost use Rattle.page_format.specs.Faults.{is_root_disk_fault};
ghost use Rattle.page_format.specs.Refusals.{IsRootRefusal};
ghost use Rattle.page_format.specs.Roots.{IsWithinLimits};
ghost use Rattle.type_layout.specs.Sound.{IsSoundSchema};
ghost use Rattle.type_layout.specs.declared.schema.Schema.{Schema as Shaped};
ghost use Rattle.pss_recovery.specs.Faults.{is_mount_disk_fault};
ghost use Rattle.pss_recovery.specs.Stands.{IsRefusal, IsRooted};

use crate::checking::test_shape;
use crate::fault::MountFault;
use page_store::{Root, RootFault, read_root};
use pss_disk::Station;
use std::alloc::Global;
use type_layout::Schema;

// Why a store is not mounted whose root is not read.
fn of_root(fault: RootFault) -> MountFault
    ensures refused { (S : Shaped) (image : List ℕ) → IsRootRefusal fault image → IsRefusal S result image }
    ensures disk { is_mount_disk_fault {T = Unit {0}} (Err result) ≡ is_root_disk_fault {T = Unit {0}} (Err fault) }
{
    match fault {
        RootFault::NotAStore => MountFault::NotAStore,
        RootFault::Damaged(at, kind) => MountFault::Damaged(at, kind),
        RootFault::DiskFault => MountFault::DiskFault,
        RootFault::NoMemory => MountFault::NoMemory,
    }
}

/// Reads the current root, and tests that its shape is that of the schema.
pub fn read_rooted<W: Station>(
    alloc: Global,
    w: &mut W,
    schema: &Schema,
) -> Result<Root, MountFault>
    requires { IsSoundSchema schema.now }
    ensures rooted { IfOk result (λ root. IfSome (W.content w.old) (IsRooted schema.now root)) }
    ensures limits { IfOk result (λ root. IsWithinLimits root) }
    ensures refused { IfErr result (λ fault. IfSome (W.content w.old) (IsRefusal schema.now fault)) }
    ensures reads { OnlyReads W.now W.content W.history W.speak_faults w.old w.new }
    ensures cause { HasCauseIf (W.disk_faults w.old) (W.disk_faults w.new) (is_mount_disk_fault result) }
{
    let root = match read_root(alloc, w) {
        Ok(root) => root,
        Err(fault) => return Err(of_root(fault)),
    };
    match test_shape(alloc, schema, root.shape.as_slice()) {
        Ok(()) => Ok(root),
        Err(fault) => Err(fault),
    }
}
