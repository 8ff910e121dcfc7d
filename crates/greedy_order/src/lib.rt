// The greedy feedback-arc order as mathematics.
// The definitions stand in specs/, in reading order by their names. What is proved of them stands here, as contracts.

#![tactic(auto)]

pub mod bounds;
pub mod theorems;
