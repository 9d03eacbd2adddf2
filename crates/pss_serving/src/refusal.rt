// The line that is spoken for a text that has a fault.
ghost use Rattle.std.specs.Prelude.{◌≡◌, ◌++◌, codes, decimal, IfOk, OnOk};
ghost use Rattle.psdl_rules.specs.Faults.{text};
ghost use Rattle.pss_serving.specs.Refusals.{kind_text, placed_line, refusal_line};

use crate::schema_fault::SchemaFault;
use itoa::Buffer;
use psdl_check::CheckFault;
use psdl_rules::fault_text;
use psdl_syntax::{SyntaxFault, SyntaxKind};
use pss_base::{Bytes, NoMemory, Place};
use std::alloc::Global;

fn append_kind(line: &mut Bytes, kind: SyntaxKind) -> Result<(), NoMemory>
    ensures { OnOk result (line.new ≡ line.old ++ kind_text kind) }
{
    match kind {
        SyntaxKind::BadByte => line.extend(b"S1 BadByte"),
        SyntaxKind::OpenComment => line.extend(b"S2 OpenComment"),
        SyntaxKind::BadLiteral => line.extend(b"S3 BadLiteral"),
        SyntaxKind::LiteralTooWide => line.extend(b"S4 LiteralTooWide"),
        SyntaxKind::Unexpected => line.extend(b"S5 Unexpected"),
        SyntaxKind::LeftOut => line.extend(b"S6 LeftOut"),
        SyntaxKind::TooDeep => line.extend(b"S7 TooDeep"),
        SyntaxKind::TooLong => line.extend(b"S8 TooLong"),
        SyntaxKind::NoMemory => line.extend(b"NoMemory"),
    }
}

fn append_number(line: &mut Bytes, number: u32) -> Result<(), NoMemory>
    ensures { OnOk result (line.new ≡ line.old ++ decimal number) }
{
    line.extend(Buffer::new().format(number).as_bytes())
}

// What stands in front of the kind.
fn placed(alloc: Global, place: Place) -> Result<Bytes, NoMemory>
    ensures { IfOk result (λ bytes. bytes ≡ codes "schema " ++ decimal place.line ++ codes ":" ++ decimal place.column ++ codes " ") }
{
    let mut line = Bytes::from_slice(alloc, b"schema ")?;
    append_number(&mut line, place.line)?;
    line.extend(b":")?;
    append_number(&mut line, place.column)?;
    line.extend(b" ")?;
    Ok(line)
}

fn print_syntax(alloc: Global, fault: SyntaxFault) -> Result<Bytes, NoMemory>
    ensures { IfOk result (λ bytes. bytes ≡ placed_line fault.place (kind_text fault.kind)) }
{
    let mut line = placed(alloc, fault.place)?;
    append_kind(&mut line, fault.kind)?;
    line.push(b'\n')?;
    Ok(line)
}

fn print_check(alloc: Global, fault: CheckFault) -> Result<Bytes, NoMemory>
    ensures { IfOk result (λ bytes. bytes ≡ placed_line fault.place (text fault.kind)) }
{
    let mut line = placed(alloc, fault.place)?;
    line.extend(fault_text(fault.kind))?;
    line.push(b'\n')?;
    Ok(line)
}

/// The line that is spoken for a fault, with its line feed: the place by line and column, both from 1, and the kind.
pub fn print_schema_fault(alloc: Global, fault: &SchemaFault) -> Result<Bytes, NoMemory>
    ensures { IfOk result (λ bytes. bytes ≡ refusal_line fault.now) }
{
    match fault {
        SchemaFault::Syntax(fault) => print_syntax(alloc, *fault),
        SchemaFault::Check(fault) => print_check(alloc, *fault),
    }
}
