// A store as a whole.
ghost use Rattle.std.specs.Prelude.{◌≡◌, ◌<◌, ◌≤◌, Err, IfSome, IsSome, OnOk, length};
ghost use Rattle.std.specs.FinMap.{empty};
ghost use Rattle.pss_base.specs.Causes.{HasCauseIf};
ghost use Rattle.pss_disk.specs.Moments.{IsSettled};
ghost use Rattle.pss_disk.specs.Reading.{OnlyReads};
ghost use Rattle.type_layout.specs.declared.schema.Schema.{Schema};
ghost use Rattle.type_layout.specs.ShapeText.{shape_text};
ghost use Rattle.pss_recovery.specs.declared.fault.InitFault.TheVariants as fault;
ghost use Rattle.pss_recovery.specs.Faults.{is_init_disk_fault};
ghost use Rattle.pss_recovery.specs.Silence.{IsSilent};
ghost use Rattle.pss_recovery.specs.Stands.{Stands};

use crate::clearing::write_new;
use crate::fault::InitFault;
use crate::parts::Parts;
use pss_base::Bytes;
use pss_disk::Station;
use std::alloc::Global;
use std::marker::Model;

mod checkpoint;
mod commit;
mod mount;
mod prepare;

/// A store that is mounted.
///
/// Contracts see what is known of it in memory. What it stands for is said of the content of its station (`IsMounted`).
#[derive(Drop)]
pub struct Store {
    pub(crate) parts: Parts,
    // The octets of the last body, in whose room those of the next one are made.
    pub(crate) space: Bytes,
}

impl Model for Store {
    ghost use Rattle.pss_recovery.specs.declared.parts.Parts.{Parts};

    ghost Value = { Parts };

    ghost use Rattle.pss_recovery.specs.contracts.parts.Parts as parts_code;

    ghost coded = { parts_code.the_row.coded };

    ghost use Rattle.pss_recovery.specs.Mounted.{IsWhole};

    ghost view = { λ s. s.parts };

    ghost invariant = { λ s. IsWhole s.parts };
}

impl Store {
    /// Makes a store without objects in an empty file: zero octets, the root, a sync, and the root's gate.
    ///
    /// `NotEmpty`: the file has octets. `NoMemory`: there was no memory. `DiskFault`: a call of the disk failed. A file that has octets is
    /// only read, whatever the answer; after `NoMemory`, so was an empty one.
    pub fn init<W: Station>(alloc: Global, w: &mut W, shape: &Bytes) -> Result<(), InitFault>
        requires { length shape.now ≤ 65536 }
        ensures made { OnOk result ((S : Schema) → shape_text S ≡ shape.now → IfSome (W.content w.new) (Stands S empty 1)) }
        ensures told { OnOk result (IsSome (W.content w.old) → IsSome (W.content w.new)) }
        ensures settled { OnOk result (IsSettled (W.content w.new) (W.now w.new)) }
        ensures empty { OnOk result (IfSome (W.content w.old) (λ c. length c ≡ 0)) }
        ensures not_empty { result ≡ Err fault.NotEmpty → IfSome (W.content w.old) (λ c. 0 < length c) }
        ensures stays { result ≡ Err fault.NotEmpty → (W.content w.new ≡ W.content w.old) × (W.now w.new ≡ W.now w.old) }
        ensures memory { result ≡ Err fault.NoMemory → OnlyReads W.now W.content W.history W.speak_faults w.old w.new }
        ensures filled { IfSome (W.content w.old) (λ c. 0 < length c → OnlyReads W.now W.content W.history W.speak_faults w.old w.new) }
        ensures silent { IsSilent W.now W.history W.speak_faults w.old w.new }
        ensures cause { HasCauseIf (W.disk_faults w.old) (W.disk_faults w.new) (is_init_disk_fault result) }
    {
        match w.len() {
            Ok(0) => write_new(alloc, w, shape),
            Ok(_) => Err(InitFault::NotEmpty),
            Err(_) => Err(InitFault::DiskFault),
        }
    }
}
