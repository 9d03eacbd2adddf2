// Replies are spoken.
ghost use Rattle.std.specs.Prelude.{◌≡◌, false, IsTrue, OnOk};
ghost use Rattle.pss_base.specs.Causes.{HasCauseIf};
ghost use Rattle.pss_disk.specs.Moments.{Through};
ghost use Rattle.line_service.specs.Spoken.{HasSpoken};
ghost use Rattle.line_service.specs.Turns.{Speaks, is_disk_fault, is_speak_fault};
ghost use Rattle.script_service.specs.Turns.{line_for};
ghost use Rattle.pss_machine.specs.declared.reply.Reply.TheVariants as replies;

use line_service::{Turn, speak};
use pss_base::{Bytes, NoMemory};
use pss_disk::Station;
use pss_machine::Reply;
use script_text::append_reply;

/// What is spoken for the reply of most commands.
const DONE: &[u8] = b"OK\n";

// The text of a reply with its line feed.
fn print_line(line: &mut Bytes, reply: &Reply) -> Result<(), NoMemory>
    ensures { OnOk result (line.new ≡ line_for reply.now) }
{
    line.clear();
    append_reply(line, reply)?;
    line.push(b'\n')
}

fn is_done(reply: &Reply) -> bool
    ensures { IsTrue result → reply.now ≡ replies.Done }
{
    match reply {
        Reply::Done => true,
        _ => false,
    }
}

/// Speaks a whole line in one call.
#[inline(always)]
pub fn speak_line<W: Station>(line: &[u8], station: &mut W) -> Turn
    ensures speaks { Speaks result line.now (W.now station.old).spoken (W.now station.new).spoken }
    ensures disk { (W.now station.new).disk ≡ (W.now station.old).disk }
    ensures content { W.content station.new ≡ W.content station.old }
    ensures moments { Through (W.history station.old) (W.history station.new) (HasSpoken (W.now station.new).spoken (W.now station.old).disk) }
    ensures speech { HasCauseIf (W.speak_faults station.old) (W.speak_faults station.new) (is_speak_fault result) }
    ensures faults { W.disk_faults station.new ≡ W.disk_faults station.old }
    ensures fault { is_disk_fault result ≡ false }
{
    match speak(station, line) {
        Ok(()) => Turn::Went,
        Err(_) => Turn::SpeakFault,
    }
}

/// Speaks a reply with its line feed in one call, which is made in the room of another line. Want of memory comes before anything
/// is spoken.
#[inline(never)]
pub fn say<W: Station>(line: &mut Bytes, reply: &Reply, station: &mut W) -> Turn
    ensures speaks { Speaks result (line_for reply.now) (W.now station.old).spoken (W.now station.new).spoken }
    ensures disk { (W.now station.new).disk ≡ (W.now station.old).disk }
    ensures content { W.content station.new ≡ W.content station.old }
    ensures moments { Through (W.history station.old) (W.history station.new) (HasSpoken (W.now station.new).spoken (W.now station.old).disk) }
    ensures speech { HasCauseIf (W.speak_faults station.old) (W.speak_faults station.new) (is_speak_fault result) }
    ensures faults { W.disk_faults station.new ≡ W.disk_faults station.old }
    ensures fault { is_disk_fault result ≡ false }
{
    if is_done(reply) {
        return speak_line(DONE, station);
    }
    match print_line(line, reply) {
        Ok(()) => speak_line(line.as_slice(), station),
        Err(_) => Turn::NoMemory,
    }
}
