ghost use Rattle.std.specs.Prelude.{◌≡◌, ◌++◌, OnOk, string_bytes};
ghost use Rattle.std.specs.List.{flat_map};
ghost use Rattle.edit_lines.specs.Maps.{arc_line, edges_text, node_text, nodes_text, all_edges_text, map_text};
ghost use Rattle.graphmap.specs.Maps.{map_model};

use graphmap::OpenMap;
use keys::{Junction, Key};
use map_model::CompactDirection;
use std::alloc::AllocError;
use std::fmt::Write;

/// Writes a word, and an arc's ends and weight, on a line.
pub fn write_arc(
    out: &mut String,
    word: &str,
    arc: (Junction, Junction, u32),
) -> Result<(), AllocError>
    ensures { OnOk result (string_bytes out.new ≡ string_bytes out.old ++ arc_line word.now arc) }
{
    let (source, target, weight) = arc;
    writeln!(out, "{word} {source} {target} {weight}")
}

// The edges of a node in a direction, each after a word.
fn write_edges(
    out: &mut String,
    map: OpenMap<'_, '_, Junction, u32>,
    node: Junction,
    direction: CompactDirection,
    word: &str,
) -> Result<(), AllocError>
    ensures { OnOk result (string_bytes out.new ≡ string_bytes out.old ++ edges_text (map_model map.entry.map.now) word.now node direction) }
{
    for edge in map.edges_directed(node, direction) {
        write_arc(out, word, edge)?;
    }
    Ok(())
}

// A node, with its edges out and in.
fn write_node(
    out: &mut String,
    map: OpenMap<'_, '_, Junction, u32>,
    node: Junction,
) -> Result<(), AllocError>
    ensures { OnOk result (string_bytes out.new ≡ string_bytes out.old ++ node_text (map_model map.entry.map.now) node) }
{
    writeln!(out, "node {node}")?;
    write_edges(out, map, node, CompactDirection::Outgoing, "out")?;
    write_edges(out, map, node, CompactDirection::Incoming, "in")
}

fn write_nodes(out: &mut String, map: OpenMap<'_, '_, Junction, u32>) -> Result<(), AllocError>
    ensures { OnOk result (string_bytes out.new ≡ string_bytes out.old ++ nodes_text (map_model map.entry.map.now)) }
{
    for node in map.nodes() {
        write_node(out, map, node)?;
    }
    Ok(())
}

fn write_all_edges(out: &mut String, map: OpenMap<'_, '_, Junction, u32>) -> Result<(), AllocError>
    ensures { OnOk result (string_bytes out.new ≡ string_bytes out.old ++ all_edges_text (map_model map.entry.map.now)) }
{
    for edge in map.all_edges() {
        write_arc(out, "arc", edge)?;
    }
    Ok(())
}

/// Writes what a map shows: the counts, each node with its edges, and all edges.
pub fn write_map(out: &mut String, map: OpenMap<'_, '_, Junction, u32>) -> Result<(), AllocError>
    ensures { OnOk result (string_bytes out.new ≡ string_bytes out.old ++ map_text (map_model map.entry.map.now)) }
{
    writeln!(out, "nodes {} arcs {}", map.node_count(), map.edge_count())?;
    write_nodes(out, map)?;
    write_all_edges(out, map)
}
