// Edits of a map of junctions as lines of text.

#![tactic(auto)]

mod map;
mod reading;
mod steps;
mod words;

pub use map::{write_arc, write_map};
pub use reading::{edit, number};
pub use steps::{JunctionEdit, JunctionStep, write_steps};
pub use words::LineWords;

#[cfg(test)]
mod tests {
    use super::{LineWords, edit, number, write_arc, write_map, write_steps};
    use graphmap::GraphMap;
    use keys::{Junction, Key};
    use map_model::Edit;
    use replay::Step;
    use std::test::Fail;

    #[test]
    fn numbers_at_their_bounds(rt: HostRuntime) {
        assert_eq!(rt; number("4294967295"), Some(4294967295));
        assert_eq!(rt; number("4294967296"), None);
        assert_eq!(rt; number("0000000001"), Some(1));
        assert_eq!(rt; number("00000000001"), None);
        assert_eq!(rt; number("+1"), None);
        assert_eq!(rt; number(""), None);
    }

    #[test]
    fn lines_are_read_and_written(rt: HostRuntime) -> Result<(), Fail> {
        let mut text = String::new(rt.alloc());
        for line in ["arc 1 2 7", "node 3", "remove-arc 1 2", "remove-node 3"] {
            if let Some(edit) = edit(line) {
                write_steps(&mut text, &[Step { edit, answer: None }])?;
            }
        }
        assert_eq!(rt;
            text.as_str(),
            "arc 1 2 7: \nnode 3: \nremove-arc 1 2: \nremove-node 3: \n"
        );
        assert!(rt; edit("arc 1 2").is_none());
        assert!(rt; edit("node 3 4").is_none());
        Ok(())
    }

    #[test]
    fn words_stand_one_space_apart(rt: HostRuntime) {
        let words = LineWords::new("a  b");
        assert!(rt; words.split_first().is_some_and(|(word, _)| word == "a"));
        let left = words.split_first().map(|(_, left)| left);
        let left = left.and_then(|words| words.split_first());
        assert!(rt; left.is_some_and(|(word, _)| word.is_empty()));
        let left = left.and_then(|(_, words)| words.split_first());
        assert!(rt; left.is_some_and(|(word, left)| word == "b" && left.split_first().is_none()));
    }

    #[test]
    fn a_map_is_written(rt: HostRuntime) -> Result<(), Fail> {
        let mut text = String::new(rt.alloc());
        let map: GraphMap<'_, Junction, u32> = GraphMap::new();
        write_map(&mut text, map.open())?;
        write_arc(&mut text, "held", (Junction::new(1), Junction::new(2), 7))?;
        assert_eq!(rt; text.as_str(), "nodes 0 arcs 0\nheld 1 2 7\n");
        Ok(())
    }
}
