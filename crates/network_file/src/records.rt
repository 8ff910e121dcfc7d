// The checks of a file's records: nodes that differ, and arcs between them.

ghost use Rattle.std.specs.Prelude.{◌≡◌, []};
ghost use Rattle.network_file.specs.Checks.{has, nodes_differ, ends_listed};
ghost use Rattle.network_file.specs.Reading.{arcs_begin, nodes_of, arcs_of, numbers_in};

use crate::fields::has_field;
use crate::view::NetworkFile;
use crate::walk::Numbers;
use fault::Fault;

// Whether `node` is one of these nodes.
fn listed(nodes: Numbers<'_>, node: u32) -> bool
    ensures { result ≡ has (numbers_in nodes.entry.rest.now) node }
{
    has_field(nodes.rest, node)
}

// No node record equals an earlier one.
pub(crate) fn check_nodes(file: NetworkFile<'_>) -> Result<(), Fault>
    ensures { result ≡ nodes_differ [] 16 (nodes_of file.entry.bytes.now) }
{
    for (k, node) in file.nodes().enumerate() {
        if listed(file.first_nodes(k), node) {
            return Err(Fault::NodeRepeated(file.node_place(k) as u32));
        }
    }
    Ok(())
}

// The source and the target of each arc are in node records.
pub(crate) fn check_ends(file: NetworkFile<'_>) -> Result<(), Fault>
    ensures { result ≡ ends_listed (nodes_of file.entry.bytes.now) (arcs_begin file.entry.bytes.now) (arcs_of file.entry.bytes.now) }
{
    for (k, arc) in file.arcs().enumerate() {
        let at = file.arc_place(k) as u32;
        if !listed(file.nodes(), arc.source) {
            return Err(Fault::EndUnlisted(at));
        }
        if !listed(file.nodes(), arc.target) {
            return Err(Fault::EndUnlisted(at + 4));
        }
    }
    Ok(())
}
