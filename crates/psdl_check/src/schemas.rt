// The schema of a text.
ghost use Rattle.std.specs.Prelude.{◌≡◌, None, [], IfOk};
ghost use Rattle.psdl_check.specs.inner.Made.{IsMade, IsReady, AreMade};
ghost use Rattle.psdl_check.specs.inner.Texts.{text_in, IsOne};

use crate::heirs::Heirs;
use crate::home_factories::HomeFactories;
use crate::home_keys::HomeKeys;
use crate::homes::{Making, add_homes};
use crate::key_rows::KeyRows;
use crate::keys::Keys;
use crate::layouts::Layouts;
use crate::provided_homes::provided_homes;
use crate::text::Text;
use psdl_directory::DeclarationNo;
use psdl_lineage::Conformity;
use pss_base::NoMemory;
use std::alloc::Global;
use type_layout::{HomeList, ProvidedList, Schema};

/// The schema of a text, or the home with which its shape gets too long.
#[derive(Drop)]
pub(crate) enum Made {
    Whole(Schema),
    TooLong(DeclarationNo),
}

// What homes are made of, before the first.
fn making_of<'t, 'd>(alloc: Global, text: &Text<'t, 'd>) -> Result<Making<'t, 'd>, NoMemory>
    requires { IsOne text.now }
    ensures ready { IfOk result (λ m. IsReady (text_in text.now) m) }
    ensures none { IfOk result (λ m. AreMade (text_in text.now) [] m) }
{
    let rows = KeyRows::new(alloc, text.directory())?;
    let home_keys = HomeKeys::new(alloc, text.lineage, &rows)?;
    let keys = Keys::new(alloc, rows.ids.len())?;
    Ok(Making {
        layouts: Layouts::new(alloc, text)?,
        heirs: Heirs::new(alloc),
        rows,
        home_keys,
        factories: HomeFactories::new(alloc, text.lineage)?,
        conformity: Conformity::new(alloc, text.lineage)?,
        keys,
        homes: HomeList::new(alloc),
    })
}

// The schema of all that is made.
fn schema_with(making: Making, provided: ProvidedList) -> Schema
    ensures homes { result.homes ≡ making.entry.homes }
    ensures keys { result.keys ≡ making.entry.keys.list }
    ensures provided { result.provided ≡ provided }
{
    let homes = making.homes;
    let keys = making.keys;
    Schema {
        homes,
        keys: keys.list,
        provided,
    }
}

/// The schema of a text, or the home with which its shape gets too long.
pub(crate) fn make_schema(alloc: Global, text: &Text) -> Result<Made, NoMemory>
    requires { IsOne text.now }
    ensures { IfOk result (λ made. IsMade (text_in text.now) made) }
{
    let mut making = making_of(alloc, text)?;
    let passes = add_homes(alloc, text, &mut making)?;
    match passes {
        Some(home) => Ok(Made::TooLong(home)),
        None => {
            let provided = provided_homes(alloc, text)?;
            Ok(Made::Whole(schema_with(making, provided)))
        }
    }
}
