ghost use Rattle.std.specs.Prelude.{◌≡◌, ℕ, ◌*◌, ◌<◌, ◌≤◌, true, false, List, ◌∷◌, length, Some, None, OnSome, slice_index_or, slice_set};
ghost use Rattle.fas_layout.specs.Classes.{Filed, of_class, without_front};
ghost use Rattle.fas_layout.specs.Columns.{class_of, class_at};
ghost use Rattle.fas_layout.specs.Following.{LostOne, LostAll, Updated};
ghost use Rattle.fas_layout.specs.Stages.{lifted};
ghost use Rattle.feedback_arc_set.specs.Containers.{columns, unlisted_of, SameNames};
ghost use Rattle.feedback_arc_set.specs.Listed.{starts, SameSizes, TookFirst, index_in};
ghost use Rattle.feedback_arc_set.specs.Nodes.{starts_of, neighbours_of};
ghost use Rattle.linked_list.specs.Chains.{first};
ghost use Rattle.network.specs.Counting.{has, without};

use crate::container::FasNodeContainer;
use crate::neighbours::{next_at, node_at};
use crate::places::{ClassPlace, NeighbourPlace, put};
use keys::FasNodeIndex;
use linked_list::list::LinkedList;
use linked_list::walk::is_in_list;
use network::CompactDirection;

// The nodes that are not taken, listed by class: sinks in class 0, source nodes in class 2m for m arcs, any other node
// in the class of its difference, out-degree less in-degree, and m.
#[derive(Drop)]
pub(crate) struct Buckets<'b> {
    pub(crate) places: &'b mut [ClassPlace],
    pub(crate) arcs: u32,
    // no class above it has a member, but for the source nodes
    pub(crate) top: usize,
}

fn class_of(arcs: u32, out_degree: u32, in_degree: u32) -> usize
    ensures { result ≡ class_of arcs out_degree in_degree }
{
    if out_degree == 0 {
        0
    } else if in_degree == 0 {
        2 * (arcs as usize)
    } else {
        (out_degree as usize + arcs as usize).saturating_sub(in_degree as usize)
    }
}

fn list_at(places: &[ClassPlace], class: usize) -> LinkedList
    ensures { result.start ≡ slice_index_or (starts_of places.now) class None }
{
    places
        .get(class)
        .map_or(LinkedList::new(), |place| place.list)
}

fn set_list(places: &mut [ClassPlace], class: usize, list: LinkedList)
    ensures { starts_of places.new ≡ slice_set (starts_of places.old) class list.start }
{
    put(places, class, ClassPlace { list });
}

// Puts the entry to the front of a class.
fn push_at(
    places: &mut [ClassPlace],
    nodes: &mut FasNodeContainer<'_>,
    class: usize,
    ix: FasNodeIndex,
)
    ensures filed { (D : ℕ → ℕ) (us : List ℕ) → D ix.value ≡ class → has us ix.value ≡ false → ix.value < length (columns nodes.old).positions → class < length (starts_of places.old) → Filed (columns nodes.old).positions D (starts_of places.old) us → Filed (columns nodes.new).positions D (starts_of places.new) (ix.value ∷ us) }
    ensures kept { unlisted_of nodes.new ≡ unlisted_of nodes.old }
{
    let mut list = list_at(places, class);
    let _ = list.push_front(nodes, ix.get());
    set_list(places, class, list);
}

// Takes the entry out of its class.
fn remove_at(
    places: &mut [ClassPlace],
    nodes: &mut FasNodeContainer<'_>,
    class: usize,
    ix: FasNodeIndex,
)
    ensures filed { (D : ℕ → ℕ) (us : List ℕ) → D ix.value ≡ class → has us ix.value ≡ true → Filed (columns nodes.old).positions D (starts_of places.old) us → Filed (columns nodes.new).positions D (starts_of places.new) (without ix.value us) }
    ensures kept { unlisted_of nodes.new ≡ unlisted_of nodes.old }
{
    let mut rest = list_at(places, class);
    let _ = rest.remove(nodes, ix.get());
    set_list(places, class, rest);
}

impl<'b> Buckets<'b> {
    // The class that the entry belongs to by its degrees.
    pub(crate) fn suitable_bucket(&self, nodes: &FasNodeContainer<'_>, ix: FasNodeIndex) -> usize
        ensures { result ≡ class_at self.now.arcs (columns nodes.now) ix.value }
    {
        let node = nodes.node(ix);
        class_of(self.arcs, node.out_degree, node.in_degree)
    }

    // The first node of a class.
    pub(crate) fn start(&self, class: usize) -> Option<u32>
        ensures { result ≡ slice_index_or (starts self.now) class None }
    {
        list_at(self.places, class).start
    }

    // Puts the entry to the front of a class.
    pub(crate) fn push_front(
        &mut self,
        nodes: &mut FasNodeContainer<'_>,
        class: usize,
        ix: FasNodeIndex,
    )
        ensures filed { (D : ℕ → ℕ) (us : List ℕ) → D ix.value ≡ class → has us ix.value ≡ false → ix.value < length (columns nodes.old).positions → class < length (starts self.old) → Filed (columns nodes.old).positions D (starts self.old) us → Filed (columns nodes.new).positions D (starts self.new) (ix.value ∷ us) }
        ensures kept { unlisted_of nodes.new ≡ unlisted_of nodes.old }
        ensures sizes { SameSizes self.new self.old }
    {
        push_at(self.places, nodes, class, ix);
    }

    // Takes the entry out of its class.
    pub(crate) fn remove(
        &mut self,
        nodes: &mut FasNodeContainer<'_>,
        class: usize,
        ix: FasNodeIndex,
    )
        ensures filed { (D : ℕ → ℕ) (us : List ℕ) → D ix.value ≡ class → has us ix.value ≡ true → Filed (columns nodes.old).positions D (starts self.old) us → Filed (columns nodes.new).positions D (starts self.new) (without ix.value us) }
        ensures kept { unlisted_of nodes.new ≡ unlisted_of nodes.old }
        ensures sizes { SameSizes self.new self.old }
    {
        remove_at(self.places, nodes, class, ix);
    }

    // Takes the first entry out of a class.
    pub(crate) fn pop(
        &mut self,
        nodes: &mut FasNodeContainer<'_>,
        class: usize,
    ) -> Option<FasNodeIndex>
        ensures popped { (D : ℕ → ℕ) (us : List ℕ) → Filed (columns nodes.old).positions D (starts self.old) us → (index_in result ≡ first (of_class D class us)) × Filed (columns nodes.new).positions D (starts self.new) (without_front (index_in result) us) }
        ensures kept { unlisted_of nodes.new ≡ unlisted_of nodes.old }
        ensures sizes { SameSizes self.new self.old }
    {
        let popped = FasNodeIndex::new(self.start(class)?);
        self.remove(nodes, class, popped);
        Some(popped)
    }

    // An entry that is not taken loses an arc and goes to the front of its class, be it the same one.
    fn lower(
        &mut self,
        nodes: &mut FasNodeContainer<'_>,
        ix: FasNodeIndex,
        direction: CompactDirection,
    )
        ensures lost { LostOne direction self.old.arcs (columns nodes.old) (starts self.old) (columns nodes.new) (starts self.new) ix.value }
        ensures names { SameNames nodes.new nodes.old }
        ensures sizes { SameSizes self.new self.old }
    {
        if !is_in_list(nodes, ix.get()) {
            return;
        }
        let class = self.suitable_bucket(nodes, ix);
        self.remove(nodes, class, ix);
        let node = nodes.node(ix).lowered(direction);
        nodes.set_node(ix, node);
        let class = self.suitable_bucket(nodes, ix);
        self.push_front(nodes, class, ix);
    }

    // Places rise along the list, so the walk ends; `successors` has no end that a proof can see.
    // The neighbours from the place `from` on lose an arc each.
    fn lower_all(
        &mut self,
        nodes: &mut FasNodeContainer<'_>,
        neighbours: &[NeighbourPlace],
        from: Option<u32>,
        direction: CompactDirection,
    )
        ensures lost { LostAll direction self.old.arcs (neighbours_of neighbours.now) (columns nodes.old) (starts self.old) (columns nodes.new) (starts self.new) from }
        ensures names { SameNames nodes.new nodes.old }
        ensures sizes { SameSizes self.new self.old }
    {
        let mut at = from;
        while let Some(p) = at {
            self.lower(nodes, node_at(neighbours, p), direction);
            at = next_at(neighbours, p);
        }
    }

    // The out neighbours of a taken entry lose an arc that comes in, then its in neighbours one that goes out.
    fn update_neighbour_node_buckets(
        &mut self,
        nodes: &mut FasNodeContainer<'_>,
        neighbours: &[NeighbourPlace],
        ix: FasNodeIndex,
    )
        ensures updated { Updated self.old.arcs (neighbours_of neighbours.now) (columns nodes.old) (starts self.old) (columns nodes.new) (starts self.new) (slice_index_or (columns nodes.old).first_outs ix.value None) (slice_index_or (columns nodes.old).first_ins ix.value None) }
        ensures names { SameNames nodes.new nodes.old }
        ensures sizes { SameSizes self.new self.old }
    {
        let node = nodes.node(ix);
        self.lower_all(
            nodes,
            neighbours,
            node.first_out,
            CompactDirection::Incoming,
        );
        self.lower_all(nodes, neighbours, node.first_in, CompactDirection::Outgoing);
    }

    // The class of the source nodes.
    pub(crate) fn source_class(&self) -> usize
        ensures { result ≡ 2 * self.now.arcs }
    {
        2 * (self.arcs as usize)
    }

    // A loop that yields the class by `break`, as in petgraph.
    // The highest class that has a member, from `top` down; 0 where none has.
    pub(crate) fn best_class(&self) -> usize
        ensures above { (k : ℕ) → result < k → k ≤ self.now.top → slice_index_or (starts self.now) k None ≡ None }
        ensures member { slice_index_or (starts self.now) result None ≡ None → result ≡ 0 }
    {
        let mut class = self.top;
        loop {
            if class == 0 || self.start(class).is_some() {
                break class;
            }
            class -= 1;
        }
    }

    // Takes the first entry of a class, if there is room for it in the order: its neighbours move.
    pub(crate) fn take_first(
        &mut self,
        nodes: &mut FasNodeContainer<'_>,
        neighbours: &[NeighbourPlace],
        class: usize,
        room: u32,
    ) -> Option<FasNodeIndex>
        ensures first { TookFirst (neighbours_of neighbours.now) nodes.old nodes.new self.old self.new class room (index_in result) }
        ensures room { OnSome result (0 < room) }
        ensures names { SameNames nodes.new nodes.old }
    {
        if room == 0 {
            return None;
        }
        let taken = self.pop(nodes, class)?;
        self.top = lifted(self.arcs, self.top, nodes.node(taken).out_degree);
        self.update_neighbour_node_buckets(nodes, neighbours, taken);
        Some(taken)
    }
}

// A bound for the classes once a node with `out_degree` arcs out is taken.
fn lifted(arcs: u32, top: usize, out_degree: u32) -> usize
    ensures { result ≡ lifted arcs top out_degree }
{
    if top < 2 * (arcs as usize) {
        top + out_degree as usize
    } else {
        top
    }
}
