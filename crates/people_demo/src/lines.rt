// The lines of a round.
ghost use Rattle.std.specs.Prelude.{◌≡◌, ◌++◌, ◌∷◌, [], ◌≤◌, ◌*◌, ◌-◌, OnOk, IfOk};
ghost use Rattle.people_demo.specs.Lines as plain;
ghost use Rattle.people_demo.specs.Lines.{as_lines, bossing, committing, making};

use crate::numbers::append_numbered;
use pss_base::{Bytes, LineStep, NoMemory, Pid, append_pid};
use std::alloc::Global;

/// A checkpoint is made after so many rounds.
const ROUNDS_TO_CHECKPOINT: u32 = 50;

/// The home of all people.
const PEOPLE: u32 = 1;

// Puts a line last.
fn push_line(lines: &mut Vec<LineStep>, text: Bytes) -> Result<(), NoMemory>
    ensures { OnOk result (lines.new.items ≡ lines.old.items ++ as_lines (text ∷ [])) }
{
    lines.push(LineStep::Line(text))?;
    Ok(())
}

// Puts a line of these words last.
fn push_words(alloc: Global, lines: &mut Vec<LineStep>, words: &[u8]) -> Result<(), NoMemory>
    ensures { OnOk result (lines.new.items ≡ lines.old.items ++ as_lines (words.now ∷ [])) }
{
    let text = Bytes::from_slice(alloc, words)?;
    push_line(lines, text)?;
    Ok(())
}

fn made(alloc: Global, round: u32) -> Result<Bytes, NoMemory>
    ensures { IfOk result (λ text. text ≡ plain.made round) }
{
    let mut text = Bytes::new(alloc);
    append_numbered(&mut text, b"make s1 PersonHomeBase make \"", round)?;
    append_numbered(&mut text, b"\" \"n", round)?;
    text.push(b'"')?;
    Ok(text)
}

fn found(alloc: Global, boss: u32) -> Result<Bytes, NoMemory>
    ensures { IfOk result (λ text. text ≡ plain.found boss) }
{
    let mut text = Bytes::new(alloc);
    append_numbered(&mut text, b"find s1 PersonHomeBase ssn \"", boss)?;
    text.push(b'"')?;
    Ok(text)
}

// The entry of the one whom a round made.
fn entry_of(round: u32) -> u32
    requires some { 1 ≤ round }
    requires few { round ≤ 1000 }
    ensures { result ≡ 2 * round - 2 }
{
    2 * round - 2
}

fn bossed(alloc: Global, round: u32, boss: u32) -> Result<Bytes, NoMemory>
    requires some { 1 ≤ round }
    requires few { round ≤ 1000 }
    ensures { IfOk result (λ text. text ≡ plain.bossed round boss) }
{
    let mut text = Bytes::new(alloc);
    append_numbered(&mut text, b"set s1 i", entry_of(round))?;
    text.extend(b" boss ")?;
    append_pid(
        &mut text,
        Pid {
            home: PEOPLE,
            serial: u64::from(boss),
        },
    )?;
    Ok(text)
}

fn followed(alloc: Global, round: u32) -> Result<Bytes, NoMemory>
    requires some { 1 ≤ round }
    requires few { round ≤ 1000 }
    ensures { IfOk result (λ text. text ≡ plain.followed round) }
{
    let mut text = Bytes::new(alloc);
    append_numbered(&mut text, b"follow s1 i", entry_of(round))?;
    text.extend(b" boss")?;
    Ok(text)
}

// A transaction begins, and one more of the people is made.
fn push_making(alloc: Global, lines: &mut Vec<LineStep>, round: u32) -> Result<(), NoMemory>
    ensures { OnOk result (lines.new.items ≡ lines.old.items ++ as_lines (making round)) }
{
    push_words(alloc, lines, b"begin t SERIALIZABLE")?;
    push_words(alloc, lines, b"start s1 t")?;
    push_line(lines, made(alloc, round)?)?;
    Ok(())
}

// An earlier one is found, and becomes the boss.
fn push_boss(
    alloc: Global,
    lines: &mut Vec<LineStep>,
    round: u32,
    boss: u32,
) -> Result<(), NoMemory>
    requires some { 1 ≤ round }
    requires few { round ≤ 1000 }
    ensures { OnOk result (lines.new.items ≡ lines.old.items ++ as_lines (bossing round boss)) }
{
    push_line(lines, found(alloc, boss)?)?;
    push_line(lines, bossed(alloc, round, boss)?)?;
    push_line(lines, followed(alloc, round)?)?;
    Ok(())
}

// Each fiftieth round makes a checkpoint.
fn push_checkpoint(alloc: Global, lines: &mut Vec<LineStep>, round: u32) -> Result<(), NoMemory>
    ensures { OnOk result (lines.new.items ≡ lines.old.items ++ as_lines (plain.checkpointing round)) }
{
    if round % ROUNDS_TO_CHECKPOINT == 0 {
        push_words(alloc, lines, b"checkpoint")?;
    }
    Ok(())
}

// The transaction commits.
fn push_commit(alloc: Global, lines: &mut Vec<LineStep>, round: u32) -> Result<(), NoMemory>
    ensures { OnOk result (lines.new.items ≡ lines.old.items ++ as_lines (committing round)) }
{
    push_words(alloc, lines, b"freeall s1")?;
    push_words(alloc, lines, b"end s1 ok")?;
    push_words(alloc, lines, b"commit t")?;
    push_checkpoint(alloc, lines, round)?;
    Ok(())
}

/// The lines that come before all rounds.
pub fn opening(alloc: Global) -> Result<Vec<LineStep>, NoMemory>
    ensures { IfOk result (λ lines. lines.items ≡ plain.opening) }
{
    let mut lines = Vec::new(alloc);
    push_words(alloc, &mut lines, b"open s0 basic rw")?;
    push_words(alloc, &mut lines, b"open s1 tx rw")?;
    Ok(lines)
}

fn push_some_boss(
    alloc: Global,
    lines: &mut Vec<LineStep>,
    round: u32,
    boss: Option<u32>,
) -> Result<(), NoMemory>
    requires some { 1 ≤ round }
    requires few { round ≤ 1000 }
    ensures { OnOk result (lines.new.items ≡ lines.old.items ++ as_lines (plain.boss_lines round boss)) }
{
    if let Some(boss) = boss {
        push_boss(alloc, lines, round, boss)?;
    }
    Ok(())
}

/// The lines of a round, where the boss is of an earlier one; in the first round there is none.
pub fn round_lines(alloc: Global, round: u32, boss: Option<u32>) -> Result<Vec<LineStep>, NoMemory>
    requires some { 1 ≤ round }
    requires few { round ≤ 1000 }
    ensures { IfOk result (λ lines. lines.items ≡ plain.round_lines round boss) }
{
    let mut lines = Vec::new(alloc);
    push_making(alloc, &mut lines, round)?;
    push_some_boss(alloc, &mut lines, round, boss)?;
    push_commit(alloc, &mut lines, round)?;
    Ok(lines)
}

/// The lines that come behind all rounds.
pub fn counting(alloc: Global) -> Result<Vec<LineStep>, NoMemory>
    ensures { IfOk result (λ lines. lines.items ≡ plain.counting) }
{
    let mut lines = Vec::new(alloc);
    push_words(alloc, &mut lines, b"count s0 PersonHomeBase")?;
    Ok(lines)
}
