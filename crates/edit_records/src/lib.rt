// Recorded lists of edits of a map of junctions, with what they answered and the map that they left.

#![tactic(auto)]

mod answers;
mod lines;
mod map;
mod reading;
mod records;
mod words;

pub use answers::after_number;
pub use lines::{after_number_in_line, number_in_line, record_in_line};
pub use reading::number;
pub use records::record;

#[cfg(test)]
mod tests {
    use super::{
        after_number, after_number_in_line, number, number_in_line, record, record_in_line,
    };
    use edit_lines::LineWords;
    use std::test::Fail;

    #[test]
    fn numbers_are_read_and_compared(rt: HostRuntime) -> Result<(), Fail> {
        let words: Vec<&str> = "12 |".split(' ').collect(rt.alloc())?;
        let words = words.as_slice();
        assert!(rt; number(words).is_some_and(|(value, rest)| value == 12 && rest.len() == 1));
        assert!(rt; after_number(words, 12).is_some_and(|rest| rest.len() == 1));
        assert!(rt; after_number(words, 13).is_none());
        assert!(rt; number(&words[1..]).is_none());
        Ok(())
    }

    #[test]
    fn small_records_agree(rt: HostRuntime) -> Result<(), Fail> {
        let line =
            "2 1 1 a 1 2 7 | answers new | nodes 2 1 1 2 o 1 1 2 7 0 2 1 1 i 0 1 1 2 7 | arcs 1 1 2 7";
        let words: Vec<&str> = line.split(' ').collect(rt.alloc())?;
        assert!(rt; record(rt.alloc(), words.as_slice())?);
        assert!(rt; !record(rt.alloc(), &words.as_slice()[1..])?);
        Ok(())
    }

    #[test]
    fn words_of_a_slice_may_hold_spaces(rt: HostRuntime) -> Result<(), Fail> {
        let spaced = ["1 2", "3"];
        assert!(rt; number(&spaced).is_none());
        assert!(rt;
            number(&spaced[1..]).is_some_and(|(value, rest)| value == 3 && rest.is_empty())
        );
        // The direction of a link is passed over, whatever it is.
        let line =
            "1/1/1/a/1/1/7/|/answers/new/|/nodes/1/1/1/1/o and i/1/1/1/7/1/1/1/7/|/arcs/1/1/1/7";
        let words: Vec<&str> = line.split('/').collect(rt.alloc())?;
        assert!(rt; record(rt.alloc(), words.as_slice())?);
        Ok(())
    }

    // Whether one word is left.
    fn is_last(words: LineWords<'_>) -> bool {
        words
            .split_first()
            .is_some_and(|(_, rest)| rest.split_first().is_none())
    }

    #[test]
    fn numbers_in_a_line_are_read_and_compared(rt: HostRuntime) {
        let words = LineWords::new("12 |");
        assert!(rt;
            number_in_line(words).is_some_and(|(value, rest)| value == 12 && is_last(rest))
        );
        assert!(rt; after_number_in_line(words, 12).is_some_and(is_last));
        assert!(rt; after_number_in_line(words, 13).is_none());
        assert!(rt; number_in_line(LineWords::new("|")).is_none());
    }

    #[test]
    fn small_records_in_a_line_agree(rt: HostRuntime) -> Result<(), Fail> {
        let line =
            "2 1 1 a 1 2 7 | answers new | nodes 2 1 1 2 o 1 1 2 7 0 2 1 1 i 0 1 1 2 7 | arcs 1 1 2 7";
        assert!(rt; record_in_line(rt.alloc(), LineWords::new(line))?);
        assert!(rt; !record_in_line(rt.alloc(), LineWords::new(&line[2..]))?);
        Ok(())
    }
}
