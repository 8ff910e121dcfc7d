// A list of edits replayed on a map, and the map ordered.

#![tactic(auto)]

pub mod edits;
pub mod run;
pub mod step;

pub use edits::{apply, replay_edits};
pub use run::replay;
pub use step::Step;
