// One line is served, and its reply is spoken.
ghost use Rattle.std.specs.Prelude.{◌≡◌, ◌<◌, ◌+◌};
ghost use Rattle.pss_base.specs.Causes.{HasCauseIf};
ghost use Rattle.pss_disk.specs.Moments.{Through};
ghost use Rattle.line_service.specs.Turns.{IsLine, Speaks, SaidWhole, is_speak_fault, is_disk_fault};
ghost use Rattle.script_service.specs.Turns.{Running, turn_from};
ghost use Rattle.script_service.specs.Keeping.{Passes};
ghost use Rattle.script_service.specs.Going.{IsIn, connector_of, served_by};

use crate::getting::print_reply;
use crate::replying::reply_to;
use crate::saying::{say, speak_line};
use connector::{Connector, gets_store_nothing};
use line_service::{LineMachine, Turn};
use pss_base::{Bytes, LineStep, StoreStop};
use pss_disk::Station;
use pss_recovery::a_mounted_store_stands;
use std::alloc::Global;

/// A connector, and how many lines were served by it.
#[derive(Drop)]
pub struct Daemon {
    connector: Connector,
    served: u32,
    // The line that was spoken last: the next one takes its room.
    spoken: Bytes,
}

impl Daemon {
    /// A daemon that has served no line, over a connector on which no command was performed.
    pub fn new(alloc: Global, connector: Connector) -> Daemon
        ensures connector { connector_of result ≡ connector }
        ensures served { served_by result ≡ 0 }
    {
        Daemon {
            connector,
            served: 0,
            spoken: Bytes::new(alloc),
        }
    }

    /// Serves a line of at most 65,536 bytes, or one that was too long: what it says is performed, and its reply is spoken
    /// in one call, when the store holds what it committed. After any answer but `Went` it is not called again. It serves at most 4,294,967,295 lines.
    pub fn turn<W: Station>(&mut self, line: LineStep, station: &mut W) -> Turn
        requires line { IsLine line }
        requires few { served_by self.old < 4294967295 }
        requires stands { (state : Running) × IsIn self.old state (W.content station.old) (W.now station.old).disk }
        ensures served { result ≡ Turn.Went → served_by self.new ≡ served_by self.old + 1 }
        ensures went { result ≡ Turn.Went → (state : Running) → IsIn self.old state (W.content station.old) (W.now station.old).disk
            → IsIn self.new (turn_from state line).0 (W.content station.new) (W.now station.new).disk }
        ensures speaks { (state : Running) → IsIn self.old state (W.content station.old) (W.now station.old).disk
            → Speaks result (turn_from state line).1 (W.now station.old).spoken (W.now station.new).spoken }
        ensures moments { (state : Running) → IsIn self.old state (W.content station.old) (W.now station.old).disk
            → Through (W.history station.old) (W.history station.new)
            (λ m. Passes state line (W.now station.old).spoken m × SaidWhole result (turn_from state line).1 (W.now station.old).spoken (W.now station.new).spoken m.spoken) }
        ensures speech { HasCauseIf (W.speak_faults station.old) (W.speak_faults station.new) (is_speak_fault result) }
        ensures disk { HasCauseIf (W.disk_faults station.old) (W.disk_faults station.new) (is_disk_fault result) }
    {
        self.serve_line(&line, station)
    }

    // Serves a line of any words.
    #[inline(never)]
    fn serve_any<W: Station>(&mut self, line: &LineStep, station: &mut W) -> Turn
        requires line { IsLine line.now }
        requires few { served_by self.old < 4294967295 }
        requires stands { (state : Running) × IsIn self.old state (W.content station.old) (W.now station.old).disk }
        ensures served { result ≡ Turn.Went → served_by self.new ≡ served_by self.old + 1 }
        ensures went { result ≡ Turn.Went → (state : Running) → IsIn self.old state (W.content station.old) (W.now station.old).disk
            → IsIn self.new (turn_from state line.now).0 (W.content station.new) (W.now station.new).disk }
        ensures speaks { (state : Running) → IsIn self.old state (W.content station.old) (W.now station.old).disk
            → Speaks result (turn_from state line.now).1 (W.now station.old).spoken (W.now station.new).spoken }
        ensures moments { (state : Running) → IsIn self.old state (W.content station.old) (W.now station.old).disk
            → Through (W.history station.old) (W.history station.new)
            (λ m. Passes state line.now (W.now station.old).spoken m × SaidWhole result (turn_from state line.now).1 (W.now station.old).spoken (W.now station.new).spoken m.spoken) }
        ensures speech { HasCauseIf (W.speak_faults station.old) (W.speak_faults station.new) (is_speak_fault result) }
        ensures disk { HasCauseIf (W.disk_faults station.old) (W.disk_faults station.new) (is_disk_fault result) }
    {
        a_mounted_store_stands();
        self.served += 1;
        match reply_to(&mut self.connector, line, station) {
            Ok(Some(reply)) => say(&mut self.spoken, &reply, station),
            Ok(None) => Turn::Went,
            Err(StoreStop::DiskFault) => Turn::DiskFault,
            Err(StoreStop::NoMemory) => Turn::NoMemory,
        }
    }
}

impl LineMachine for Daemon {
    ghost State = { Running };

    ghost is_in = { IsIn };

    ghost turn = { turn_from };

    ghost passes = { Passes };

    ghost served = { served_by };

    #[inline(always)]
    fn serve_line<W: Station>(&mut self, line: &LineStep, station: &mut W) -> Turn {
        a_mounted_store_stands();
        gets_store_nothing();
        match print_reply(&mut self.connector, line, &mut self.spoken) {
            Ok(true) => {
                self.served += 1;
                speak_line(self.spoken.as_slice(), station)
            }
            Ok(false) => self.serve_any(line, station),
            Err(_) => Turn::NoMemory,
        }
    }
}
