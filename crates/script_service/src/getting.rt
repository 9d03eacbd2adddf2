// The reply to a `get` whose value is told at once is printed.
ghost use Rattle.std.specs.Prelude.{◌≡◌, codes, IfOk, IfSome, OnOk};
ghost use Rattle.pss_machine.specs.declared.command.Command.TheVariants as commands;
ghost use Rattle.pss_machine.specs.Run.{Says};
ghost use Rattle.line_service.specs.Turns.{IsLine};
ghost use Rattle.script_service.specs.Turns.{told_by};
ghost use Rattle.script_service.specs.Going.{IsReady, IsGetPrinted, IsReplyPrinted};

use connector::Connector;
use pss_base::{Bytes, LineStep, NoMemory};
use script_text::{GetWords, read_get};

// The words of the `get` that a line says. None: it says something else, or in another way.
#[inline(always)]
fn get_of<'a>(line: &'a LineStep) -> Option<GetWords<'a>>
    requires { IsLine line.now }
    ensures { IfSome result (λ words. told_by line.now ≡ Says (commands.Get words.s.now words.entry words.member.now)) }
{
    match line {
        LineStep::Line(text) => read_get(text.as_slice()),
        _ => None,
    }
}

// What is spoken before a value, in the room of another line.
#[inline(always)]
fn begin(line: &mut Bytes) -> Result<(), NoMemory>
    ensures { OnOk result (line.new ≡ codes "OK ") }
{
    line.clear();
    line.extend(b"OK ")
}

// Performs the `get` of these words where its value is told at once, and makes the line of its reply in the room of another.
#[inline(always)]
fn print_get(
    connector: &mut Connector,
    words: GetWords<'_>,
    line: &mut Bytes,
) -> Result<bool, NoMemory>
    requires { IsReady connector.old }
    ensures { IfOk result (λ told. IsGetPrinted words.entry.s.now words.entry.entry words.entry.member.now connector.old connector.new told line.new) }
{
    begin(line)?;
    match connector.tell(words.s, words.entry, words.member, line) {
        Ok(true) => {
            line.push(b'\n')?;
            Ok(true)
        }
        Ok(false) => Ok(false),
        Err(memory) => Err(memory),
    }
}

/// Performs what a line says where that is a `get` whose value is told at once, and makes the line of its reply in the room of another.
/// False: it says something else, or no value is told at once; then the connector is as before.
#[inline(always)]
pub fn print_reply(
    connector: &mut Connector,
    step: &LineStep,
    line: &mut Bytes,
) -> Result<bool, NoMemory>
    requires line { IsLine step.now }
    requires ready { IsReady connector.old }
    ensures { IfOk result (λ told. IsReplyPrinted step.now connector.old connector.new told line.new) }
{
    match get_of(step) {
        Some(words) => print_get(connector, words, line),
        None => Ok(false),
    }
}
