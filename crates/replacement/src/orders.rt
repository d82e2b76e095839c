//! The orders of all sets, as the rules that move a way to the end keep them.
ghost use Rattle.std.specs.Prelude.{◌≡◌, ℕ, ◌<◌, [], take, slice_index_or};
ghost use Rattle.replacement.specs.Orders.{EachOnce, first_order, moved_to_end, first_offered, picked, Chosen, told, AbsentKept};

use crate::geometry::{Geometry, MOST_SETS, MOST_WAYS};
use line::laying::bit;
use list::keyed::take_out;

// A row for each set. As many of its first bytes as there are ways are the set's order; those behind mean nothing.
// Of fixed size, so that a rule takes no memory and making one cannot fail.
#[derive(Clone, Copy)]
pub(crate) struct Orders {
    pub(crate) geometry: Geometry,
    rows: [[u8; MOST_WAYS]; MOST_SETS],
    ghost once: { (set : ℕ) → set < geometry.sets → EachOnce geometry.ways (take geometry.ways (slice_index_or rows set [])) },
}

// The first of these ways that is offered.
fn first_offered(order: &[u8], offered: u8) -> Option<u8>
    ensures { result ≡ first_offered offered order.now }
{
    order
        .iter()
        .copied()
        .find(|way| bit(u16::from(offered), usize::from(*way)))
}

impl Orders {
    ghost use Rattle.replacement.specs.Rows.{order_of};

    // Each set begins with its ways from the lowest up.
    pub(crate) fn new(geometry: Geometry) -> Orders
        ensures geometry { result.geometry ≡ geometry }
        ensures order { (set : ℕ) → set < geometry.sets → order_of result set ≡ first_order geometry.ways }
    {
        Orders {
            geometry,
            rows: [[0, 1, 2, 3, 4, 5, 6, 7]; MOST_SETS],
        }
    }

    // The first way in the set's order that is offered.
    pub(crate) fn pick(&self, set: usize, offered: u8) -> Option<usize>
        ensures value { result ≡ picked self.now.geometry.sets (order_of self.now) set offered }
        ensures cases { Chosen self.now.geometry set offered result }
    {
        let row = self.rows[..self.geometry.sets].get(set)?;
        first_offered(&row[..self.geometry.ways], offered).map(usize::from)
    }

    // Moves a way of a set behind its others, which keep their order.
    pub(crate) fn move_to_end(&mut self, set: usize, way: usize)
        ensures geometry { self.new.geometry ≡ self.old.geometry }
        ensures order { (k : ℕ) → order_of self.new k ≡ told self.old.geometry (order_of self.old) set way (moved_to_end way (order_of self.old set)) k }
        ensures absent { AbsentKept self.old.geometry set way self.old self.new }
    {
        let ways = self.geometry.ways;
        if way >= ways {
            return;
        }
        // a copy of the row: of a struct that has a ghost field the checker does not yet lend a part of an element
        let Some(mut row) = self.rows[..self.geometry.sets].get(set).copied() else {
            return;
        };
        // below 8: `TryFrom` would add an error that cannot come
        let _ = take_out(&mut row[..ways], way as u32);
        self.rows[set] = row;
    }
}
