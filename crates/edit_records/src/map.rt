ghost use Rattle.std.specs.Prelude.{◌≡◌};
ghost use Rattle.graphmap.specs.Maps.{map_model};
ghost use Rattle.edit_records.specs.Reading.{left_by};
ghost use Rattle.edit_records.specs.Showing.{after_edge, after_edges, after_link, after_links, after_node, after_nodes, after_arcs, after_map};

use crate::answers::{after_heading, after_value};
use crate::reading::read_number;
use crate::words::RecordWords;
use graphmap::OpenMap;
use keys::Junction;
use map_model::CompactDirection;

fn after_edge<W: RecordWords>(words: W, edge: (Junction, Junction, u32)) -> Option<W>
    ensures { left_by W.words result ≡ after_edge edge (W.words words) }
{
    let (source, target, weight) = edge;
    let words = after_value(words, source.get())?;
    let words = after_value(words, target.get())?;
    after_value(words, weight)
}

fn after_edges<W: RecordWords>(
    words: W,
    map: OpenMap<'_, '_, Junction, u32>,
    node: Junction,
    direction: CompactDirection,
) -> Option<W>
    ensures { left_by W.words result ≡ after_edges (map_model map.entry.map.now) node direction (W.words words) }
{
    let (mut count, mut rest) = read_number(words)?;
    for edge in map.edges_directed(node, direction) {
        count = count.checked_sub(1)?;
        rest = after_edge(rest, edge)?;
    }
    (count == 0).then_some(rest)
}

fn after_link<W: RecordWords>(words: W) -> Option<W>
    ensures { left_by W.words result ≡ after_link (W.words words) }
{
    let (_other, words) = read_number(words)?;
    let (_direction, words) = words.split_first()?;
    Some(words)
}

// The links of a node are passed over, for its edges in both directions show them.
fn after_links<W: RecordWords>(words: W) -> Option<W>
    ensures { left_by W.words result ≡ after_links (W.words words) }
{
    let (count, mut rest) = read_number(words)?;
    for _ in 0..count {
        rest = after_link(rest)?;
    }
    Some(rest)
}

fn after_node<W: RecordWords>(
    words: W,
    map: OpenMap<'_, '_, Junction, u32>,
    node: Junction,
) -> Option<W>
    ensures { left_by W.words result ≡ after_node (map_model map.entry.map.now) node (W.words words) }
{
    let words = after_value(words, node.get())?;
    let words = after_links(words)?;
    let words = after_edges(words, map, node, CompactDirection::Outgoing)?;
    after_edges(words, map, node, CompactDirection::Incoming)
}

fn after_nodes<W: RecordWords>(words: W, map: OpenMap<'_, '_, Junction, u32>) -> Option<W>
    ensures { left_by W.words result ≡ after_nodes (map_model map.entry.map.now) (W.words words) }
{
    let (mut count, mut rest) = read_number(after_heading(words, "nodes")?)?;
    for node in map.nodes() {
        count = count.checked_sub(1)?;
        rest = after_node(rest, map, node)?;
    }
    (count == 0).then_some(rest)
}

fn after_arcs<W: RecordWords>(words: W, map: OpenMap<'_, '_, Junction, u32>) -> Option<W>
    ensures { left_by W.words result ≡ after_arcs (map_model map.entry.map.now) (W.words words) }
{
    let (mut count, mut rest) = read_number(after_heading(words, "arcs")?)?;
    for edge in map.all_edges() {
        count = count.checked_sub(1)?;
        rest = after_edge(rest, edge)?;
    }
    (count == 0).then_some(rest)
}

// The words after those that show this map.
pub(crate) fn after_map<W: RecordWords>(words: W, map: OpenMap<'_, '_, Junction, u32>) -> Option<W>
    ensures { left_by W.words result ≡ after_map (map_model map.entry.map.now) (W.words words) }
{
    after_arcs(after_nodes(words, map)?, map)
}
