// The least of the faults of a text.
ghost use Rattle.psdl_directory.specs.FaultLaws.{LeavesLeast, GoesByParts, ChangesNothing};

use crate::fault::{CheckFault, CheckKind};
use pss_base::Place;
use std::marker::Model;

/// The least of the faults that were noted: first by place, then by kind.
#[derive(Drop)]
pub struct Least {
    fault: Option<CheckFault>,
}

impl Model for Least {
    ghost use Rattle.std.specs.Prelude.{Option};
    ghost use Rattle.psdl_directory.specs.declared.fault.CheckFault.{CheckFault};

    ghost Value = { Option CheckFault };

    ghost view = { λ l. l.fault };
}

impl Least {
    ghost use Rattle.std.specs.Prelude.{◌≡◌, Some, None};
    ghost use Rattle.psdl_directory.specs.Fault.{lesser, fault_if};
    ghost use Rattle.psdl_directory.specs.Noting.{noting, comes_first};

    /// The least of no faults.
    pub fn new() -> Least
        ensures { result ≡ None }
    {
        Least { fault: None }
    }

    /// The least fault so far.
    pub fn fault(&self) -> Option<CheckFault>
        ensures { result ≡ self.now }
    {
        self.fault
    }

    /// Whether a fault of that kind at that place would be the least. Where it would not, it need
    /// not be looked for.
    pub fn comes_first(&self, kind: CheckKind, place: Place) -> bool
        ensures { result ≡ comes_first self.now kind place }
    {
        match self.fault {
            Some(first) => first.is_after(CheckFault { place, kind }),
            None => true,
        }
    }

    /// Notes a fault.
    pub fn note(&mut self, fault: CheckFault)
        ensures { self.new ≡ lesser self.old (Some fault) }
    {
        match self.fault {
            Some(first) if !first.is_after(fault) => {}
            _ => self.fault = Some(fault),
        }
    }

    /// Notes a fault, where it holds.
    pub fn note_if(&mut self, holds: bool, kind: CheckKind, place: Place)
        ensures { self.new ≡ noting self.old (fault_if holds kind place) }
    {
        if holds {
            self.note(CheckFault { place, kind });
        }
    }
}

/// When faults are noted one by one, the least is left.
pub fn noting_leaves_least()
    ensures { LeavesLeast }
{}

/// Faults may be noted part by part.
pub fn noting_goes_by_parts()
    ensures { GoesByParts }
{}

/// A fault that would not come first changes nothing: so whether it holds need not be found out.
pub fn late_fault_changes_nothing()
    ensures { ChangesNothing }
{}
