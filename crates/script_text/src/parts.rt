// The words behind the first one of a command, by their kinds.
ghost use Rattle.std.specs.Prelude.{◌≡◌, ◌≤◌, ◌∷◌, length, if◌then◌else◌, true, IfSome, Some, None};
ghost use Rattle.std.specs.List.{list_all, prefix_len};
ghost use Rattle.std.specs.Char.{is_ascii_digit};
ghost use Rattle.std.specs.Str.Parse.{digits_value};
ghost use Rattle.script_text.specs.Parts as spec;
ghost use Rattle.script_text.specs.Meaning as meaning;
ghost use Rattle.script_text.specs.Meaning.{step, OfName, OfWord, OfEntry, OfPid, OfSerial, OneOf};
ghost use Rattle.script_text.specs.Words.{words_in};
ghost use Rattle.script_text.specs.inner.Seen.{seen, seen_word, Gives, IsNumberInFront};

use crate::CommandFault;
use crate::tail::Tail;
use crate::words::{Word, behind_space, word_in};
use pss_base::{Pid, read_pid, read_short_pid};
use pss_machine::{Rest, Text};

// Each byte of a name stands at its own place, and a full stop at every other place.
static NAME_BYTES: [u8; 256] = *b"\
    ................................\
    ................0123456789......\
    .ABCDEFGHIJKLMNOPQRSTUVWXYZ...._\
    .abcdefghijklmnopqrstuvwxyz.....\
    ................................\
    ................................\
    ................................\
    ................................";

#[inline(always)]
fn is_name_byte(byte: u8) -> bool
    ensures { result ≡ spec.is_name_byte byte }
{
    NAME_BYTES[byte as usize] != b'.'
}

#[inline(always)]
fn are_name_bytes(bytes: &[u8]) -> bool
    ensures { result ≡ list_all spec.is_name_byte bytes.now }
{
    bytes.iter().all(|byte| is_name_byte(*byte))
}

// How many bytes of a name a text has in front of any other.
#[inline(always)]
fn count_name(text: &[u8]) -> usize
    ensures count { result ≡ prefix_len spec.is_name_byte text.now }
    ensures within { result ≤ length text.now }
{
    text.iter().take_while(|byte| is_name_byte(**byte)).count()
}

const MOST_BEHIND_LETTER: usize = 31;

// Whether bytes of a name are one: a letter comes first, and they are not too many.
#[inline(always)]
fn is_name_of(bytes: &[u8]) -> bool
    requires { list_all spec.is_name_byte bytes.now ≡ true }
    ensures { result ≡ spec.is_name bytes.now }
{
    match bytes.split_first() {
        Some((first, rest)) => first.is_ascii_alphabetic() && rest.len() <= MOST_BEHIND_LETTER,
        None => false,
    }
}

/// The word is a name.
#[inline(always)]
pub fn is_name(word: &[u8]) -> bool
    ensures { result ≡ spec.is_name word.now }
{
    match word.split_first() {
        Some((first, rest)) => {
            first.is_ascii_alphabetic() && are_name_bytes(rest) && rest.len() <= MOST_BEHIND_LETTER
        }
        None => false,
    }
}

/// The name of a session or a transaction: a letter, and at most 31 letters, digits or `_` behind it.
#[tactic(auto, unfolding(crate::specs::Meaning::step))]
#[inline(always)]
pub fn name_in<'a>(tail: Tail<'a>) -> Result<(Text<'a>, Tail<'a>), CommandFault>
    ensures { Gives (λ x. (x.0, seen x.1)) result (step OfName (seen tail.entry)) }
{
    let word = word_in(tail)?;
    if is_name(word.text) {
        Ok((Text::new(word.text), word.rest))
    } else {
        Err(CommandFault {
            column: word.column,
        })
    }
}

/// Any word.
#[tactic(auto, unfolding(crate::specs::Meaning::step))]
#[inline(always)]
pub fn any_in<'a>(tail: Tail<'a>) -> Result<(Text<'a>, Tail<'a>), CommandFault>
    ensures { Gives (λ x. (x.0, seen x.1)) result (step OfWord (seen tail.entry)) }
{
    let word = word_in(tail)?;
    Ok((Text::new(word.text), word.rest))
}

/// All that is left.
#[inline(always)]
pub fn rest_in<'a>(tail: Tail<'a>) -> Rest<'a>
    ensures { result ≡ seen tail.entry }
{
    Rest {
        column: tail.column,
        text: Text::new(tail.text),
    }
}

/// The first word, where it is a name between two spaces. None: it is none, or stands between other blanks.
#[inline(always)]
pub fn one_name<'a>(tail: Tail<'a>) -> Option<Word<'a>>
    ensures word { IfSome result (λ word. words_in (seen tail.entry) ≡ seen_word word ∷ words_in (seen word.rest)) }
    ensures name { IfSome result (λ word. spec.is_name word.text.now ≡ true) }
{
    let behind = behind_space(tail.text)?;
    let len = count_name(behind);
    let (text, after) = behind.split_at(len);
    if !is_name_of(text) {
        return None;
    }
    let column = tail.column + 1;
    match behind_space(after) {
        Some(_) => Some(Word {
            text,
            column,
            rest: Tail {
                column: column + len as u32,
                text: after,
            },
        }),
        None => None,
    }
}

const MOST_ENTRY_DIGITS: usize = 10;

// The number that at most ten digits write.
#[inline(always)]
fn read_number(digits: &[u8]) -> Option<u64>
    requires { length digits.now ≤ 10 }
    ensures { result ≡ (if list_all is_ascii_digit digits.now then Some (digits_value 10 digits.now) else None) }
{
    let mut number: u64 = 0;
    for digit in digits {
        if !digit.is_ascii_digit() {
            return None;
        }
        number = number * 10 + u64::from(digit - b'0');
    }
    Some(number)
}

#[inline(always)]
fn has_leading_zero(digits: &[u8]) -> bool
    ensures { result ≡ meaning.has_leading_zero digits.now }
{
    digits.len() > 1 && digits[0] == b'0'
}

/// The number of an entry that a word is.
#[inline(always)]
pub fn entry_of(word: &[u8]) -> Option<u64>
    ensures { result ≡ meaning.entry_of word.now }
{
    let (first, digits) = word.split_first()?;
    if *first != b'i'
        || digits.is_empty()
        || digits.len() > MOST_ENTRY_DIGITS
        || has_leading_zero(digits)
    {
        return None;
    }
    read_number(digits)
}

// A number, and how many digits write it.
#[derive(Clone, Copy)]
struct Number {
    value: u64,
    len: usize,
}

// What stands behind the letter of entries.
#[inline(always)]
fn behind_letter(text: &[u8]) -> Option<&[u8]>
    ensures { IfSome result (λ behind. text.now ≡ 105 ∷ behind.now) }
{
    match text {
        [b'i', behind @ ..] => Some(behind),
        _ => None,
    }
}

// The number that at most ten digits in front of a space write. None: something else is in front.
#[inline(always)]
fn number_in_front(text: &[u8]) -> Option<Number>
    ensures { IfSome result (IsNumberInFront text.now) }
{
    let mut value: u64 = 0;
    let mut len: usize = 0;
    for byte in text {
        if *byte == b' ' {
            return Some(Number { value, len });
        }
        if !byte.is_ascii_digit() || len == MOST_ENTRY_DIGITS {
            return None;
        }
        value = value * 10 + u64::from(byte - b'0');
        len += 1;
    }
    None
}

/// A word that is an entry.
#[derive(Clone, Copy)]
pub struct EntryWord<'a> {
    pub word: Word<'a>,
    pub entry: u64,
}

/// The first word, where it is an entry between two spaces. None: it is none, or stands between other blanks.
#[inline(always)]
pub fn one_entry<'a>(tail: Tail<'a>) -> Option<EntryWord<'a>>
    ensures word { IfSome result (λ found. words_in (seen tail.entry) ≡ seen_word found.word ∷ words_in (seen found.word.rest)) }
    ensures entry { IfSome result (λ found. meaning.entry_of found.word.text.now ≡ Some found.entry) }
{
    let behind = behind_space(tail.text)?;
    let digits = behind_letter(behind)?;
    let number = number_in_front(digits)?;
    if number.len == 0 || number.len > 1 && digits[0] == b'0' {
        return None;
    }
    let column = tail.column + 1;
    let len = number.len + 1;
    let (text, after) = behind.split_at(len);
    Some(EntryWord {
        word: Word {
            text,
            column,
            rest: Tail {
                column: column + len as u32,
                text: after,
            },
        },
        entry: number.value,
    })
}

/// An entry: `i` and a number of at most ten digits without leading zero.
#[tactic(auto, unfolding(crate::specs::Meaning::step))]
#[inline(always)]
pub fn entry_in<'a>(tail: Tail<'a>) -> Result<(u64, Tail<'a>), CommandFault>
    ensures { Gives (λ x. (x.0, seen x.1)) result (step OfEntry (seen tail.entry)) }
{
    let word = word_in(tail)?;
    match entry_of(word.text) {
        Some(entry) => Ok((entry, word.rest)),
        None => Err(CommandFault {
            column: word.column,
        }),
    }
}

/// An object, in 24 lower-case hexadecimal digits.
#[tactic(auto, unfolding(crate::specs::Meaning::step))]
pub fn pid_in<'a>(tail: Tail<'a>) -> Result<(Pid, Tail<'a>), CommandFault>
    ensures { Gives (λ x. (x.0, seen x.1)) result (step OfPid (seen tail.entry)) }
{
    let word = word_in(tail)?;
    match read_pid(word.text) {
        Some(pid) => Ok((pid, word.rest)),
        None => Err(CommandFault {
            column: word.column,
        }),
    }
}

/// A serial, in 16 lower-case hexadecimal digits.
#[tactic(auto, unfolding(crate::specs::Meaning::step))]
pub fn serial_in<'a>(tail: Tail<'a>) -> Result<(u64, Tail<'a>), CommandFault>
    ensures { Gives (λ x. (x.0, seen x.1)) result (step OfSerial (seen tail.entry)) }
{
    let word = word_in(tail)?;
    match read_short_pid(word.text) {
        Some(serial) => Ok((serial, word.rest)),
        None => Err(CommandFault {
            column: word.column,
        }),
    }
}

/// One of two words: whether it is the first.
#[tactic(auto, unfolding(crate::specs::Meaning::step))]
pub fn choice_in<'a>(
    tail: Tail<'a>,
    one: &[u8],
    other: &[u8],
) -> Result<(bool, Tail<'a>), CommandFault>
    ensures { Gives (λ x. (x.0, seen x.1)) result (step (OneOf one.now other.now) (seen tail.entry)) }
{
    let word = word_in(tail)?;
    if word.text == one {
        Ok((true, word.rest))
    } else if word.text == other {
        Ok((false, word.rest))
    } else {
        Err(CommandFault {
            column: word.column,
        })
    }
}
