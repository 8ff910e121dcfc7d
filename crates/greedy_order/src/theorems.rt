// What is proved of every greedy order, and of the order with ties decided.
// A function here does nothing: its contract is the theorem, and the crate is proved only where the theorem is.
ghost use Rattle.greedy_order.specs.Part4Promises.{EveryLoopIsHeld, EveryClosedWalkHasAHeldArc, NoArcIsHeldExactlyWithoutClosedWalk, AtMostHalfAreHeld, TouchedPlusSixHeldIsAtMostThreeArcs, TouchedPlusSixHeldWithPairsAndLoops, ListsTheTouchedNodes, Promises, KeptByEveryGreedyOrder, TheOrderIsGreedy, TheOrderListsTheTouchedNodes, TheOrderKeepsThePromises};
ghost use Rattle.greedy_order.specs.Part5KnownOrders.{KnownOrders};
ghost use Rattle.greedy_order.specs.Part7Folded.{TheOrderOfRenamedNodesIsRenamed};

/// Every loop is held.
pub fn every_loop_is_held()
    ensures { KeptByEveryGreedyOrder EveryLoopIsHeld }
{}

/// Every closed walk has a held arc.
pub fn every_closed_walk_has_a_held_arc()
    ensures { KeptByEveryGreedyOrder EveryClosedWalkHasAHeldArc }
{}

/// No arc is held exactly when the network has no closed walk.
pub fn no_arc_is_held_exactly_without_closed_walk()
    ensures { KeptByEveryGreedyOrder NoArcIsHeldExactlyWithoutClosedWalk }
{}

/// At most half of the arcs other than loops are held.
pub fn at_most_half_are_held()
    ensures { KeptByEveryGreedyOrder AtMostHalfAreHeld }
{}

/// Without loops and opposite arcs, touched nodes plus six times held arcs is at most three times arcs.
pub fn touched_plus_six_held_is_at_most_three_arcs()
    ensures { KeptByEveryGreedyOrder TouchedPlusSixHeldIsAtMostThreeArcs }
{}

/// In any network the same bound holds with two more for each two-way pair and four more for each loop.
pub fn touched_plus_six_held_with_pairs_and_loops()
    ensures { KeptByEveryGreedyOrder TouchedPlusSixHeldWithPairsAndLoops }
{}

/// A greedy order lists the touched nodes, each once.
pub fn every_greedy_order_lists_the_touched_nodes()
    ensures { KeptByEveryGreedyOrder ListsTheTouchedNodes }
{}

/// All promises of an order together.
pub fn every_promise_is_kept()
    ensures { KeptByEveryGreedyOrder Promises }
{}

/// The order with ties decided is greedy.
pub fn the_order_is_greedy()
    ensures { TheOrderIsGreedy }
{}

/// The order with ties decided lists the touched nodes, each once.
pub fn the_order_lists_the_touched_nodes_each_once()
    ensures { TheOrderListsTheTouchedNodes }
{}

/// The order with ties decided keeps all promises.
pub fn the_order_keeps_the_promises()
    ensures { TheOrderKeepsThePromises }
{}

/// The orders that are known come out.
pub fn known_orders()
    ensures { KnownOrders }
{}

/// The order looks at nodes only to tell them apart.
pub fn the_order_of_renamed_nodes_is_renamed()
    ensures { TheOrderOfRenamedNodesIsRenamed }
{}
