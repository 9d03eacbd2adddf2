// Reads the program's words.
ghost use Rattle.std.specs.Prelude.{ℕ, ◌≡◌, ◌<◌, ◌≤◌, ◌↔◌, length, slice_get, slice_index, IsTrue, IfOk, MatchOption, Ok, Some};
ghost use Rattle.std.specs.Fmt.{decimal};
ghost use Rattle.pss_daemon.specs.Forms.{IsPlanOf};
ghost use Rattle.pss_daemon.specs.declared.forms.Plan.{Plan};

use crate::forms::{Plan, Usage};
use pss_base::Bytes;
use std::str::from_utf8;

// Where the schema's name stands.
const SCHEMA: usize = 1;

// Where the store's name stands.
const STORE: usize = 2;

const MOST_ROUNDS: u32 = 1000;

// Tells whether there are so many words, and the first is this one.
fn is_command(words: &[Bytes], name: &[u8], count: usize) -> bool
    ensures { IsTrue result ↔ ((length words.now ≡ count) × (slice_get words.now 0 ≡ Some name.now)) }
{
    match words.first() {
        Some(word) => words.len() == count && word.as_slice() == name,
        None => false,
    }
}

// Tells whether a digit other than 0 stands first.
fn begins_above_zero(word: &[u8]) -> bool
    ensures { IsTrue result ↔ ((48 < slice_index word.now 0) × (slice_index word.now 0 < 58)) }
{
    match word.first() {
        Some(first) => b'1' <= *first && *first <= b'9',
        None => false,
    }
}

// The number that a word says in decimal, from 1 to the most. It has no sign and no leading zero.
fn rounds_of(word: &[u8]) -> Option<u32>
    ensures { MatchOption result
        ((rounds : ℕ) → 1 ≤ rounds → rounds ≤ 1000 → word.now ≡ decimal rounds → ⊥)
        (λ rounds. (1 ≤ rounds) × (rounds ≤ 1000) × (word.now ≡ decimal rounds)) }
{
    if !begins_above_zero(word) {
        return None;
    }
    let Ok(text) = from_utf8(word) else {
        return None;
    };
    let Ok(rounds) = text.parse::<u32>() else {
        return None;
    };
    if rounds > MOST_ROUNDS {
        return None;
    }
    Some(rounds)
}

/// What to do by these words, the program's own name left out.
///
/// Usage: exactly where they are none of `check SCHEMA`, `init SCHEMA STORE`, `run SCHEMA STORE`
/// and `demo N STORE`, with N from 1 to 1000 in decimal, without sign or leading zero.
pub fn plan(words: &[Bytes]) -> Result<Plan, Usage>
    ensures ok { IfOk result (IsPlanOf words.now) }
    ensures only { (plan : Plan) → IsPlanOf words.now plan → result ≡ Ok plan }
{
    if is_command(words, b"check", 2) {
        return Ok(Plan::Check { schema: SCHEMA });
    }
    if is_command(words, b"init", 3) {
        return Ok(Plan::Init {
            schema: SCHEMA,
            store: STORE,
        });
    }
    if is_command(words, b"run", 3) {
        return Ok(Plan::Run {
            schema: SCHEMA,
            store: STORE,
        });
    }
    if !is_command(words, b"demo", 3) {
        return Err(Usage);
    }
    match rounds_of(words[1].as_slice()) {
        Some(rounds) => Ok(Plan::Demo {
            rounds,
            store: STORE,
        }),
        None => Err(Usage),
    }
}
