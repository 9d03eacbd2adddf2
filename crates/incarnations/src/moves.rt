// A node goes into another row, and to an end of its column.
ghost use Rattle.std.specs.Prelude.{IsSome};
ghost use Rattle.std.specs.FinMap as map;
ghost use Rattle.link_pool.specs.Meaning.{AreRings};
ghost use Rattle.incarnations.specs.Stock.{First, Last, IsMoved};

use crate::names::Slot;
use link_pool::{Node, Pool, Row};

/// Takes a node out of its rings and puts it last in a row and in its column. The room that it leaves is the room that
/// it takes. The answer is its new name.
pub fn move_node(pool: &mut Pool<Slot>, node: Node, row: Row) -> Node
    requires node { IsSome (map.get pool.old.nodes node) }
    requires row { IsSome (map.get pool.old.rows row) }
    ensures moved { IsMoved Last pool.old pool.new node row result }
    ensures rings { AreRings pool.new }
{
    pool.rings_hold();
    let col = pool.col_of(node);
    let slot = pool.unlink_uncounted(node);
    pool.insert_reserved(row, col, slot)
}

/// Takes a node out of its rings and puts it last in a row and first in its column, as `move_node` does it. The answer is
/// its new name.
#[inline(always)]
pub fn move_ahead(pool: &mut Pool<Slot>, node: Node, row: Row) -> Node
    requires node { IsSome (map.get pool.old.nodes node) }
    requires row { IsSome (map.get pool.old.rows row) }
    ensures moved { IsMoved First pool.old pool.new node row result }
    ensures rings { AreRings pool.new }
{
    pool.rings_hold();
    let col = pool.col_of(node);
    let slot = pool.unlink_uncounted(node);
    pool.insert_ahead_reserved(row, col, slot)
}
