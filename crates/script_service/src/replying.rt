// What a line says is done, and its reply is told.
ghost use Rattle.std.specs.Prelude.{◌≡◌, ◌≤◌, length, IfErr, IfOk, IfSome, OnOk};
ghost use Rattle.pss_base.specs.Causes.{HasCauseIf};
ghost use Rattle.pss_base.specs.declared.stop.StoreStop.TheVariants as stop;
ghost use Rattle.pss_disk.specs.Moments.{IsSettled};
ghost use Rattle.page_format.specs.Faults.{is_disk_stop};
ghost use Rattle.pss_machine.specs.declared.command.Command.TheVariants as commands;
ghost use Rattle.pss_base.specs.declared.lines.LineStep.TheVariants as line_step;
ghost use Rattle.line_service.specs.Turns.{IsLine};
ghost use Rattle.pss_machine.specs.Kept.{Kept};
ghost use Rattle.pss_machine.specs.Run.{Says, reply_of};
ghost use Rattle.pss_recovery.specs.Mounted.{HasNoRecord};
ghost use Rattle.pss_recovery.specs.Silence.{IsSilent};
ghost use Rattle.commit_saving.specs.Saving.{BecomesSaved, IsSavedThroughout, StaysSaved, StoresNothing};
ghost use Rattle.script_text.specs.Meaning as meaning;
ghost use Rattle.connector.specs.Keeping.{Keeps, schema_of, limits_of, store_of};
ghost use Rattle.connector.specs.Rests.{HasShortRest};
ghost use Rattle.script_service.specs.Turns.{effect_of, told_by};
ghost use Rattle.script_service.specs.Going.{IsReady, Goes};

use connector::Connector;
use pss_base::{LONGEST_LINE, LineStep, StoreStop};
use pss_disk::Station;
use pss_machine::{Command, Reply};
use script_text::read_command;

/// The column that is told of a line which is too long: that of its first byte too many.
const TOO_LONG: u32 = LONGEST_LINE as u32 + 1;

// Performs what a line says, and tells the reply.
fn reply_to_command<W: Station>(
    connector: &mut Connector,
    command: &Command<'_>,
    station: &mut W,
) -> Result<Option<Reply>, StoreStop>
    requires rest { HasShortRest command.now }
    requires ready { IsReady connector.old }
    requires settled { IsSettled (W.content station.old) (W.now station.old) }
    ensures reply { IfOk result (λ reply. (k : Kept) → Keeps connector.old k
        → reply ≡ reply_of (schema_of connector.old) (limits_of connector.old) k (Says command.now)) }
    ensures goes { OnOk result (Goes (Says command.now) connector.old connector.new) }
    ensures saved { OnOk result ((k : Kept) → Keeps connector.old k → BecomesSaved W.content (schema_of connector.old) k (effect_of (schema_of connector.old) (limits_of connector.old) k (Says command.now)) (store_of connector.old) (store_of connector.new) station.old station.new) }
    ensures images { (k : Kept) → Keeps connector.old k → IsSavedThroughout W.content W.history (schema_of connector.old) k (effect_of (schema_of connector.old) (limits_of connector.old) k (Says command.now)) (store_of connector.old) station.old station.new }
    ensures memory { IfErr result (λ why. why ≡ stop.NoMemory → (k : Kept) → Keeps connector.old k → StaysSaved W.content W.history (schema_of connector.old) k (store_of connector.old) station.old station.new) }
    ensures emptied { command.now ≡ commands.Checkpoint → OnOk result (IfSome (W.content station.new) HasNoRecord) }
    ensures still { (command.now ≡ commands.Checkpoint → ⊥) → (k : Kept) → Keeps connector.old k → StoresNothing k (effect_of (schema_of connector.old) (limits_of connector.old) k (Says command.now)) → station.new ≡ station.old }
    ensures settled { OnOk result (IsSettled (W.content station.new) (W.now station.new)) }
    ensures silent { IsSilent W.now W.history W.speak_faults station.old station.new }
    ensures cause { HasCauseIf (W.disk_faults station.old) (W.disk_faults station.new) (is_disk_stop result) }
{
    match connector.perform(station, command) {
        Ok(reply) => Ok(Some(reply)),
        Err(stop) => Err(stop),
    }
}

// The reply to a line by the command that is read of its text, if it has one.
#[inline(never)]
fn reply_to_any<W: Station>(
    connector: &mut Connector,
    text: &[u8],
    station: &mut W,
) -> Result<Option<Reply>, StoreStop>
    requires short { length text.now ≤ 65536 }
    requires ready { IsReady connector.old }
    requires settled { IsSettled (W.content station.old) (W.now station.old) }
    ensures reply { IfOk result (λ reply. (k : Kept) → Keeps connector.old k
        → reply ≡ reply_of (schema_of connector.old) (limits_of connector.old) k (meaning.meaning text.now)) }
    ensures goes { OnOk result (Goes (meaning.meaning text.now) connector.old connector.new) }
    ensures saved { OnOk result ((k : Kept) → Keeps connector.old k → BecomesSaved W.content (schema_of connector.old) k (effect_of (schema_of connector.old) (limits_of connector.old) k (meaning.meaning text.now)) (store_of connector.old) (store_of connector.new) station.old station.new) }
    ensures images { (k : Kept) → Keeps connector.old k → IsSavedThroughout W.content W.history (schema_of connector.old) k (effect_of (schema_of connector.old) (limits_of connector.old) k (meaning.meaning text.now)) (store_of connector.old) station.old station.new }
    ensures memory { IfErr result (λ why. why ≡ stop.NoMemory → (k : Kept) → Keeps connector.old k → StaysSaved W.content W.history (schema_of connector.old) k (store_of connector.old) station.old station.new) }
    ensures emptied { (meaning.meaning text.now) ≡ Says commands.Checkpoint → OnOk result (IfSome (W.content station.new) HasNoRecord) }
    ensures still { (meaning.meaning text.now ≡ Says commands.Checkpoint → ⊥) → (k : Kept) → Keeps connector.old k → StoresNothing k (effect_of (schema_of connector.old) (limits_of connector.old) k (meaning.meaning text.now)) → station.new ≡ station.old }
    ensures settled { OnOk result (IsSettled (W.content station.new) (W.now station.new)) }
    ensures silent { IsSilent W.now W.history W.speak_faults station.old station.new }
    ensures cause { HasCauseIf (W.disk_faults station.old) (W.disk_faults station.new) (is_disk_stop result) }
{
    match read_command(text) {
        Ok(None) => Ok(None),
        Ok(Some(command)) => reply_to_command(connector, &command, station),
        Err(fault) => Ok(Some(Reply::Err(fault.column))),
    }
}

/// Does what a line says, and tells the reply, if it has one. Nothing is spoken. The disk is not called
/// for a line that stores nothing, but for a checkpoint. After an error the connector is not used again.
#[inline(always)]
pub fn reply_to<W: Station>(
    connector: &mut Connector,
    line: &LineStep,
    station: &mut W,
) -> Result<Option<Reply>, StoreStop>
    requires line { IsLine line.now }
    requires ready { IsReady connector.old }
    requires settled { IsSettled (W.content station.old) (W.now station.old) }
    ensures reply { IfOk result (λ reply. (k : Kept) → Keeps connector.old k
        → reply ≡ reply_of (schema_of connector.old) (limits_of connector.old) k (told_by line.now)) }
    ensures goes { OnOk result (Goes (told_by line.now) connector.old connector.new) }
    ensures saved { OnOk result ((k : Kept) → Keeps connector.old k → BecomesSaved W.content (schema_of connector.old) k (effect_of (schema_of connector.old) (limits_of connector.old) k (told_by line.now)) (store_of connector.old) (store_of connector.new) station.old station.new) }
    ensures images { (k : Kept) → Keeps connector.old k → IsSavedThroughout W.content W.history (schema_of connector.old) k (effect_of (schema_of connector.old) (limits_of connector.old) k (told_by line.now)) (store_of connector.old) station.old station.new }
    ensures memory { IfErr result (λ why. why ≡ stop.NoMemory → (k : Kept) → Keeps connector.old k → StaysSaved W.content W.history (schema_of connector.old) k (store_of connector.old) station.old station.new) }
    ensures emptied { (told_by line.now) ≡ Says commands.Checkpoint → OnOk result (IfSome (W.content station.new) HasNoRecord) }
    ensures still { (told_by line.now ≡ Says commands.Checkpoint → ⊥) → (k : Kept) → Keeps connector.old k → StoresNothing k (effect_of (schema_of connector.old) (limits_of connector.old) k (told_by line.now)) → station.new ≡ station.old }
    ensures settled { OnOk result (IsSettled (W.content station.new) (W.now station.new)) }
    ensures silent { IsSilent W.now W.history W.speak_faults station.old station.new }
    ensures cause { HasCauseIf (W.disk_faults station.old) (W.disk_faults station.new) (is_disk_stop result) }
{
    match line {
        LineStep::Line(text) => reply_to_any(connector, text.as_slice(), station),
        LineStep::TooLong => Ok(Some(Reply::Err(TOO_LONG))),
        _ => Ok(None),
    }
}
