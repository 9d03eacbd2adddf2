// The commits that there were.
ghost use Rattle.std.specs.Prelude.{◌≡◌, ◌-◌, ◌<◌, ◌^◌, ◌++◌, ◌∷◌, [], IfOk};
ghost use Rattle.owner_titles.specs.History.{no_commits, told};
ghost use Rattle.owner_titles.specs.Telling.{told_text};
ghost use Rattle.owner_titles.specs.inner.Room.{HasRoom, newest};

use crate::text::told_text;
use crate::told::Told;
use pss_base::NoMemory;
use std::alloc::Global;
use std::collections::VecDeque;
use std::marker::Model;
use type_layout::Names;

// How many commits are told of.
const KEPT: usize = 64;

/// How many commits there were, and the texts of the last 64 of them, oldest first.
///
/// A text is spelled when it is asked for; until then what it tells is kept as values. The room for these is made at
/// first, so that a commit is told without memory.
#[derive(Drop)]
pub struct History {
    alloc: Global,
    commits: u64,
    recent: VecDeque<Told>,
}

impl Model for History {
    ghost use Rattle.owner_titles.specs.History.{History};
    ghost use Rattle.owner_titles.specs.Codes.{history_code};
    ghost use Rattle.owner_titles.specs.Telling.{told_text};
    ghost use Rattle.owner_titles.specs.inner.Room.{HasRoom};
    ghost use Rattle.std.specs.Prelude.{map};

    ghost Value = { History };

    ghost coded = { history_code };

    ghost view = { λ h. record { commits = h.commits; recent = map told_text h.recent.items } };

    ghost invariant = { λ h. HasRoom h.recent };
}

impl History {
    /// No commit.
    pub fn new(alloc: Global) -> Result<History, NoMemory>
        ensures { IfOk result (λ history. history ≡ no_commits) }
    {
        Ok(History {
            alloc,
            commits: 0,
            recent: VecDeque::with_capacity(alloc, KEPT)?,
        })
    }

    /// One commit more, of which this is told. It takes no memory.
    pub fn tell(&mut self, commit: Told)
        requires { self.old.commits < 2 ^ 64 - 1 }
        ensures { self.new ≡ told self.old (told_text commit) }
    {
        push_last(&mut self.recent, commit);
        self.commits += 1;
    }

    /// How many commits there were.
    pub fn commits(&self) -> u64
        ensures { result ≡ self.now.commits }
    {
        self.commits
    }

    /// The texts of the last 64 commits, oldest first. They are spelled here; `NoMemory` changes nothing.
    pub fn recent(&self) -> Result<Names, NoMemory>
        ensures { IfOk result (λ texts. texts ≡ self.now.recent) }
    {
        let mut texts = Names::new(self.alloc);
        for at in 0..self.recent.len() {
            if let Some(told) = self.recent.get(at) {
                texts.push(told_text(self.alloc, told)?)?;
            }
        }
        Ok(texts)
    }
}

// Puts what is told of a commit last, in the place of the first one where there is no room for one more.
fn push_last(recent: &mut VecDeque<Told>, commit: Told)
    requires { HasRoom recent.old }
    ensures room { HasRoom recent.new }
    ensures last { recent.new.items ≡ newest (recent.old.items ++ commit ∷ []) }
{
    if recent.len() == KEPT {
        let _ = recent.pop_front();
    }
    recent.push_back_reserved(commit);
}
