ghost use Rattle.std.specs.Prelude.{◌≤◌, length};
ghost use Rattle.feedback_arc_set.specs.Orders.{Clean, Placed, order_in, order_places};
ghost use Rattle.keyed_table.specs.Tables.{listing};

use crate::tables::WorkTables;

mod calls;
mod questions;

/// The greedy feedback-arc order of the nodes of an arc source, in lent tables.
#[derive(Drop)]
pub struct Ordering<'w> {
    pub(crate) tables: WorkTables<'w>,
    pub(crate) touched: u32,
    ghost fits: { touched ≤ length (order_places tables) },
    ghost clean: { ∥ Clean tables ∥₁ },
    ghost placed: { ∥ Placed (listing tables.nodes.table) (order_in (order_places tables) touched) ∥₁ },
}
