// Which storage homes derive from which.
ghost use Rattle.std.specs.Prelude.{◌≡◌, ◌↔◌, IsTrue};
ghost use Rattle.type_layout.specs.Schemas.{descends as descends_in, DescendsFrom};
ghost use Rattle.type_layout.specs.Sound.{IsSoundSchema};

use crate::numbers::base_at;
use crate::{HomeNo, Schema};

/// Whether a home is `of` or derives from it, by one base or several. It takes time in the number
/// of these bases.
pub fn descends(schema: &Schema, home: HomeNo, of: HomeNo) -> bool
    ensures value { result ≡ descends_in schema.now home of }
    ensures meaning { IsSoundSchema schema.now → (IsTrue result ↔ DescendsFrom schema.now home of) }
{
    comes_to(schema, home, of)
}

// Goes from base to base.
fn comes_to(schema: &Schema, home: HomeNo, of: HomeNo) -> bool
    ensures { result ≡ descends_in schema.now home of }
{
    let mut current = home;
    for _ in 0..schema.homes.as_slice().len() + 1 {
        if current == of {
            return true;
        }
        let Some(base) = base_at(schema, current) else {
            return false;
        };
        current = base;
    }
    false
}
