// The most arcs that a greedy order may hold, from counts alone.
ghost use Rattle.std.specs.Prelude.{◌≡◌};
ghost use Rattle.greedy_order.specs.Part6MostHeld.{most_by_half, most_by_nodes, NoneHoldsMoreByHalf, NoneHoldsMoreByNodes};

/// Half of the arcs other than loops, rounded down, and the loops.
/// No greedy order of a network with that many arcs, and loops among them, holds more.
pub fn most_held_by_half(arcs: u32, loops: u32) -> u32
    ensures value { result ≡ most_by_half arcs loops }
    ensures bound { NoneHoldsMoreByHalf arcs loops result }
{
    arcs.saturating_sub(loops) / 2 + loops
}

/// Three times the arcs less the touched nodes, divided by six, rounded down.
/// No greedy order of a network with that many arcs and touched nodes, without loops and opposite arcs, holds more.
pub fn most_held_by_nodes(arcs: u32, touched: u32) -> u32
    ensures value { result ≡ most_by_nodes arcs touched }
    ensures bound { NoneHoldsMoreByNodes arcs touched result }
{
    let thrice = 3 * u64::from(arcs);
    (thrice.saturating_sub(u64::from(touched)) / 6) as u32
}
