// The checks of a text, and its schema.
ghost use Rattle.std.specs.Prelude.{◌≡◌, ◌⊎◌, None, Some, IfOk, IfErr};
ghost use Rattle.psdl_tree.specs.Views.{tree_view};
ghost use Rattle.psdl_directory.specs.Declarations.{all_declarations};
ghost use Rattle.psdl_directory.specs.Directories.{all_of};
ghost use Rattle.psdl_directory.specs.Fault.{least};
ghost use Rattle.psdl_directory.specs.Headers as of;
ghost use Rattle.psdl_lineage.specs.Lineages.{text_of};
ghost use Rattle.psdl_rules.specs.Faults.{faults};
ghost use Rattle.psdl_standings.specs.Texts as told;
ghost use Rattle.psdl_standings.specs.Turns.{AreInTurn};
ghost use Rattle.psdl_check.specs.Faults.{first_fault, no_memory};
ghost use Rattle.psdl_check.specs.Schemas as schemas;
ghost use Rattle.psdl_check.specs.inner.Verdicts.{IsVerdict};

use crate::schemas::{Made, make_schema};
use crate::text::Text;
use psdl_directory::{CheckFault, CheckKind, Directory, Header, headers_of};
use psdl_lineage::Lineage;
use psdl_standings::Standings;
use psdl_tree::Tree;
use pss_base::{NoMemory, Place};
use std::alloc::Global;
use type_layout::Schema;

/// What comes of a text.
#[derive(Drop)]
pub(crate) enum Verdict {
    Sound(Schema),
    Refused(CheckFault),
}

// The schema of a text that has no fault but in its shape.
fn schema_of<'t, 'd>(
    alloc: Global,
    lineage: &'t Lineage<'t, 'd>,
    standings: &'t Standings<'t, 'd>,
    headers: &'t [Header],
) -> Result<Verdict, NoMemory>
    requires headers { headers.now ≡ of.headers (text_of lineage.now) }
    requires turn { AreInTurn (text_of lineage.now) }
    requires one { told.text_of standings.now ≡ text_of lineage.now }
    requires sound { least (faults (text_of lineage.now)) ≡ None }
    ensures { IfOk result (λ v. IsVerdict (text_of lineage.now) v) }
{
    let text = Text::new(alloc, lineage, standings, headers)?;
    let made = make_schema(alloc, &text)?;
    match made {
        Made::Whole(schema) => Ok(Verdict::Sound(schema)),
        Made::TooLong(home) => Ok(Verdict::Refused(CheckFault {
            place: lineage.directory().place(home),
            kind: CheckKind::Limit,
        })),
    }
}

fn judge_text<'t, 'd>(
    alloc: Global,
    lineage: &'t Lineage<'t, 'd>,
    standings: &'t Standings<'t, 'd>,
    headers: &'t [Header],
) -> Result<Verdict, NoMemory>
    requires headers { headers.now ≡ of.headers (text_of lineage.now) }
    requires turn { AreInTurn (text_of lineage.now) }
    requires one { told.text_of standings.now ≡ text_of lineage.now }
    ensures { IfOk result (λ v. IsVerdict (text_of lineage.now) v) }
{
    let text = psdl_rules::Text::new(headers, lineage);
    let first = psdl_rules::first_fault(alloc, &text, standings)?;
    match first {
        Some(fault) => Ok(Verdict::Refused(fault)),
        None => schema_of(alloc, lineage, standings, headers),
    }
}

fn judge_directory(alloc: Global, directory: &Directory<'_>) -> Result<Verdict, NoMemory>
    requires { AreInTurn (all_of directory.now) }
    ensures { IfOk result (λ v. IsVerdict (all_of directory.now) v) }
{
    let headers = headers_of(alloc, directory)?;
    let lineage = Lineage::new(alloc, directory, &headers)?;
    let standings = Standings::new(alloc, directory, &headers)?;
    judge_text(alloc, &lineage, &standings, &headers)
}

fn judge(alloc: Global, tree: &Tree) -> Result<Verdict, NoMemory>
    ensures { IfOk result (λ v. IsVerdict (all_declarations (tree_view tree.now)) v) }
{
    let directory = Directory::new(alloc, tree)?;
    judge_directory(alloc, &directory)
}

/// The schema of a text in which nothing is wrong, or the least of its faults, by place and then by kind. Want of memory
/// is told at the first byte, 1:1.
pub fn check(alloc: Global, tree: &Tree) -> Result<Schema, CheckFault>
    ensures schema { IfOk result (λ s. (first_fault (all_declarations (tree_view tree.now)) ≡ None) × (s ≡ schemas.schema (all_declarations (tree_view tree.now)))) }
    ensures fault { IfErr result (λ f. (f ≡ no_memory) ⊎ (first_fault (all_declarations (tree_view tree.now)) ≡ Some f)) }
{
    match judge(alloc, tree) {
        Ok(Verdict::Sound(schema)) => Ok(schema),
        Ok(Verdict::Refused(fault)) => Err(fault),
        Err(_) => Err(CheckFault {
            place: Place {
                line: 1,
                column: 1,
                offset: 0,
            },
            kind: CheckKind::NoMemory,
        }),
    }
}
