// What names an entry and a body, and what is kept of entries, sessions and bodies.
ghost use Rattle.std.specs.Prelude.{◌≡◌};
ghost use Rattle.std.proofs.Common.{rules};
ghost use Rattle.std.specs.Cmp.Rules.{comparing};
ghost use Rattle.std.specs.Ordering.{on, eq_of_both};
ghost use Rattle.pss_base.specs.contracts.pid.PidPartialEq.TheImpl.{eq-value as pid_eq};
ghost use Rattle.pss_machine.specs.contracts.session.ViewPartialEq.TheImpl.{eq-value as view_eq};

use link_pool::{Col, Node, Row};
use pss_base::{Pid, SessionNo};
use pss_machine::View;
use type_layout::Record;

/// Names an entry: its session, and its number there.
#[derive(Clone, Copy, PartialEq, Eq, Hash, Drop)]
pub struct Slot {
    pub session: SessionNo,
    pub number: u32,
}

/// Names a body: an object in a view.
#[derive(Clone, Copy, Hash, Drop)]
pub struct BodyName {
    pub pid: Pid,
    pub view: View,
}

// As it is derived, but compared where it stands: each `get` compares the name of its body with the one found last, and the
// derived comparison is a call.
impl PartialEq for BodyName {
    ghost eq = { eq_of_both (on (λ b. b.pid) pid_eq.it) (on (λ b. b.view) view_eq.it) };

    ghost laws = { Prim.search (comparing, rules) };

    #[inline(always)]
    fn eq(&self, other: &BodyName) -> bool {
        self.pid.home == other.pid.home
            && self.pid.serial == other.pid.serial
            && is_view(self.view, other.view)
    }
}

impl Eq for BodyName {
    ghost laws = { Prim.search (comparing, rules) };
}

// Whether two views are one.
#[inline(always)]
fn is_view(there: View, view: View) -> bool
    ensures { result ≡ view_eq.it there view }
{
    match (there, view) {
        (View::Committed, View::Committed) => true,
        (View::Own(there), View::Own(owner)) => there.0 == owner.0,
        (View::Kept(there), View::Kept(session)) => there.0 == session.0,
        _ => false,
    }
}

/// Names an object in a session.
#[derive(Clone, Copy, PartialEq, Eq, Hash, Drop)]
pub struct ObjectName {
    pub session: SessionNo,
    pub pid: Pid,
}

/// An entry: the object that it is for, how often it was obtained, and the view of the body that it stands on.
#[derive(Clone, Copy, Drop)]
pub struct Entry {
    pub pid: Pid,
    pub count: u32,
    pub view: Option<View>,
}

/// An entry and its node.
#[derive(Clone, Copy, Drop)]
pub struct EntryRecord {
    pub entry: Entry,
    pub node: Node,
}

/// A session: its column, the row of its entries that stand on no body, the last number that an entry was given, how many
/// entries it has, and how many of them stand on a body.
#[derive(Clone, Copy, Drop)]
pub struct SessionRecord {
    pub col: Col,
    pub row: Row,
    pub last: u32,
    pub entries: u32,
    pub attached: u64,
}

/// Where a body stands: the row of its entries, and how many they are.
#[derive(Clone, Copy, Drop)]
pub struct BodyPlace {
    pub row: Row,
    pub entries: u64,
}

/// A body: where it stands, and its value.
#[derive(Drop)]
pub struct BodyRecord {
    pub place: BodyPlace,
    pub value: Record,
}
