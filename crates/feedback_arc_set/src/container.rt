use crate::fas_node::FasNode;
use keyed_table::KeyedTable;
use keys::NodeIndex;

pub(crate) mod calls;

/// The working entries: a table over node indices. An entry's position in the table is its `FasNodeIndex`.
#[derive(Drop)]
pub(crate) struct FasNodeContainer<'w> {
    pub(crate) table: KeyedTable<'w, NodeIndex, FasNode>,
}
