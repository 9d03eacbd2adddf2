// One entry fewer on a body.
ghost use Rattle.std.specs.Prelude.{◌≡◌, ◌<◌, [], Some, IsSomeAnd};
ghost use Rattle.std.specs.FinMap.{get};
ghost use Rattle.link_pool.specs.Meaning.{AreRings};
ghost use Rattle.incarnations.specs.Stock.{IsLowered};

use crate::names::BodyName;
use crate::stock::Stock;

/// An entry has left a body. Where it was the last, the body goes, and its row.
#[inline(always)]
pub fn lower(stock: &mut Stock, name: BodyName)
    requires body { IsSomeAnd (get stock.old.bodies name) (λ b. (0 < b.place.entries) × (b.place.entries ≡ 1 → get stock.old.pool.rows b.place.row ≡ Some [])) }
    requires rings { AreRings stock.old.pool }
    ensures { IsLowered stock.old stock.new name }
{
    let Some(place) = stock.bodies.place(name) else {
        unreachable!()
    };
    if place.entries > 1 {
        stock.bodies.set_entries(name, place.entries - 1);
    } else {
        stock.bodies.remove(name);
        stock.pool.remove_row(place.row);
    }
}
