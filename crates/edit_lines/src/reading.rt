ghost use Rattle.std.specs.Prelude.{◌≡◌};
ghost use Rattle.std.specs.Option.{option_map};
ghost use Rattle.edit_lines.specs.Reading.{by_number, number_in, node_edit, edit_in};
ghost use Rattle.edit_lines.specs.Words.{words_in};

use crate::steps::JunctionEdit;
use crate::words::LineWords;
use keys::Junction;
use map_model::Edit;

const MOST_DIGITS: usize = 10;

/// The number that 1 to 10 digits write, if it is below 2^32.
pub fn number(word: &str) -> Option<u32>
    ensures { result ≡ number_in word.now }
{
    if word.len() > MOST_DIGITS || word.starts_with('+') {
        return None;
    }
    word.parse().ok()
}

fn junction(word: &str) -> Option<Junction>
    ensures { option_map (λ node. node.value) result ≡ number_in word.now }
{
    number(word).map(Junction::new)
}

// The edit of one node that a verb means.
fn node_edit(verb: &str, node: Junction) -> Option<JunctionEdit>
    ensures { option_map by_number result ≡ node_edit verb.now node.value }
{
    if verb == "node" {
        Some(Edit::AddNode(node))
    } else if verb == "remove-node" {
        Some(Edit::RemoveNode(node))
    } else {
        None
    }
}

/// The edit that a line means, or `None` where it is none: words stand one space apart.
pub fn edit(line: &str) -> Option<JunctionEdit>
    ensures { option_map by_number result ≡ edit_in (words_in line.now) }
{
    let (verb, words) = LineWords::new(line).split_first()?;
    let (first, words) = words.split_first()?;
    let Some((second, words)) = words.split_first() else {
        return node_edit(verb, junction(first)?);
    };
    let Some((weight, words)) = words.split_first() else {
        let edit = Edit::RemoveEdge(junction(first)?, junction(second)?);
        return (verb == "remove-arc").then_some(edit);
    };
    if words.split_first().is_some() {
        return None;
    }
    let edit = Edit::AddEdge(junction(first)?, junction(second)?, number(weight)?);
    (verb == "arc").then_some(edit)
}
