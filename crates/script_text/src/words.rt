// The words of a line.
ghost use Rattle.std.specs.Prelude.{◌≡◌, ◌≤◌, [], ◌∷◌, IfSome, MatchOption, length, not};
ghost use Rattle.std.specs.List.{list_any, prefix_len};
ghost use Rattle.pss_base.specs.Blanks as blanks;
ghost use Rattle.script_text.specs.Words.{words_in, end_of};
ghost use Rattle.script_text.specs.Meaning as meaning;
ghost use Rattle.script_text.specs.inner.Seen.{seen, seen_word, Gives};

use crate::CommandFault;
use crate::tail::Tail;
use pss_base::{is_blank, skip_blanks};

/// A word of a line.
#[derive(Clone, Copy)]
pub struct Word<'a> {
    pub text: &'a [u8],
    /// The column of its first byte, from 1.
    pub column: u32,
    /// What stands directly behind it.
    pub rest: Tail<'a>,
}

// How many bytes a text has in front of its first blank.
#[inline(always)]
fn count_word(text: &[u8]) -> usize
    ensures count { result ≡ prefix_len (λ b. not (blanks.is_blank b)) text.now }
    ensures within { result ≤ length text.now }
{
    text.iter().take_while(|byte| !is_blank(**byte)).count()
}

/// The first word of what is left of a line.
#[inline(always)]
pub fn next_word<'a>(tail: Tail<'a>) -> Option<Word<'a>>
    ensures { MatchOption result (words_in (seen tail.entry) ≡ []) (λ word. words_in (seen tail.entry) ≡ seen_word word ∷ words_in (seen word.rest)) }
{
    let behind = skip_blanks(tail.text);
    let len = count_word(behind);
    if len == 0 {
        return None;
    }
    let column = tail.column + (tail.text.len() - behind.len()) as u32;
    let (text, after) = behind.split_at(len);
    Some(Word {
        text,
        column,
        rest: Tail {
            column: column + len as u32,
            text: after,
        },
    })
}

/// What stands behind one space.
#[inline(always)]
pub fn behind_space(text: &[u8]) -> Option<&[u8]>
    ensures { IfSome result (λ behind. text.now ≡ 32 ∷ behind.now) }
{
    match text {
        [b' ', behind @ ..] => Some(behind),
        _ => None,
    }
}

// Whether a blank stands in a text.
#[inline(always)]
fn has_blank(text: &[u8]) -> bool
    ensures { result ≡ list_any blanks.is_blank text.now }
{
    text.iter().any(|byte| is_blank(*byte))
}

/// The last word, where one space stands in front of it and nothing behind it. None: another blank does, or more, or no word follows.
#[inline(always)]
pub fn last_word<'a>(tail: Tail<'a>) -> Option<Word<'a>>
    ensures word { IfSome result (λ word. words_in (seen tail.entry) ≡ seen_word word ∷ words_in (seen word.rest)) }
    ensures last { IfSome result (λ word. length word.rest.text.now ≡ 0) }
{
    let behind = behind_space(tail.text)?;
    if has_blank(behind) {
        return None;
    }
    let len = behind.len();
    if len == 0 {
        return None;
    }
    let column = tail.column + 1;
    let (text, after) = behind.split_at(len);
    Some(Word {
        text,
        column,
        rest: Tail {
            column: column + len as u32,
            text: after,
        },
    })
}

#[inline(always)]
fn end_column(tail: Tail<'_>) -> u32
    ensures { result ≡ end_of (seen tail.entry) }
{
    tail.column + tail.text.len() as u32
}

/// The first word, which must be there.
#[inline(always)]
pub fn word_in<'a>(tail: Tail<'a>) -> Result<Word<'a>, CommandFault>
    ensures { Gives seen_word result (meaning.word_in (seen tail.entry)) }
{
    match next_word(tail) {
        Some(word) => Ok(word),
        None => Err(CommandFault {
            column: end_column(tail),
        }),
    }
}

/// No word may be left.
#[tactic(auto, unfolding(crate::specs::Meaning::nothing_in))]
#[inline(always)]
pub fn finish(tail: Tail<'_>) -> Result<(), CommandFault>
    ensures { Gives (λ x. x) result (meaning.nothing_in (seen tail.entry)) }
{
    match next_word(tail) {
        Some(word) => Err(CommandFault {
            column: word.column,
        }),
        None => Ok(()),
    }
}
