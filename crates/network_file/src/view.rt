// The view of a network file that passed its check.

ghost use Rattle.network_file.specs.Reading.{Whole, arcs_begin, nodes_of, arcs_of, numbers_in, arcs_in};
ghost use Rattle.std.specs.List.{slice_get};
ghost use Rattle.std.specs.Prelude.{◌≡◌, ◌+◌, ◌*◌, ◌<◌, ◌≤◌, length, take};

use crate::arc::FileArc;
use crate::fields::{NODES_BEGIN, whole_field};
use crate::walk::{Arcs, Numbers};

/// A network file that was checked: its nodes and arcs, read from the borrowed bytes. Only `check` makes one.
#[derive(Clone, Copy)]
pub struct NetworkFile<'a> {
    pub(crate) bytes: &'a [u8],
    ghost whole: { Whole bytes.now },
}

#[tactic(auto, using(crate::proofs::Granted::sized, crate::proofs::Granted::length_nodes_of, crate::proofs::Granted::length_arcs_of, crate::proofs::Granted::node_at, crate::proofs::Granted::arc_at, crate::proofs::Walks::numbers_nodes, crate::proofs::Walks::numbers_arcs))]
impl<'a> NetworkFile<'a> {
    /// How many nodes there are.
    pub fn node_count(&self) -> u32
        ensures { result ≡ length (nodes_of self.now.bytes.now) }
    {
        whole_field(self.bytes, 4)
    }

    /// How many arcs there are.
    pub fn arc_count(&self) -> u32
        ensures { result ≡ length (arcs_of self.now.bytes.now) }
    {
        whole_field(self.bytes, 12)
    }

    // Where the arc records begin.
    fn arcs_begin(&self) -> usize
        ensures begin { result ≡ arcs_begin self.now.bytes.now }
        ensures within { result ≤ length self.now.bytes.now }
    {
        NODES_BEGIN as usize + 4 * self.node_count() as usize
    }

    // The byte at which the record of the node at `position` begins.
    pub(crate) fn node_place(&self, position: usize) -> usize
        requires { position < length (nodes_of self.now.bytes.now) }
        ensures place { result ≡ 16 + 4 * position }
        ensures within { result + 4 ≤ length self.now.bytes.now }
        ensures small { length self.now.bytes.now < 65536 }
    {
        NODES_BEGIN as usize + 4 * position
    }

    // The byte at which the record of the arc at `position` begins.
    pub(crate) fn arc_place(&self, position: usize) -> usize
        requires { position < length (arcs_of self.now.bytes.now) }
        ensures place { result ≡ arcs_begin self.now.bytes.now + 12 * position }
        ensures within { result + 12 ≤ length self.now.bytes.now }
        ensures small { length self.now.bytes.now < 65536 }
    {
        self.arcs_begin() + 12 * position
    }

    /// The node at a position, counted from 0, or `None` past the last.
    pub fn node_at(&self, position: u32) -> Option<u32>
        ensures { result ≡ slice_get (nodes_of self.now.bytes.now) position }
    {
        if position >= self.node_count() {
            return None;
        }
        Some(whole_field(self.bytes, self.node_place(position as usize)))
    }

    /// The arc at a position, counted from 0, or `None` past the last.
    pub fn arc_at(&self, position: u32) -> Option<FileArc>
        ensures { result ≡ slice_get (arcs_of self.now.bytes.now) position }
    {
        if position >= self.arc_count() {
            return None;
        }
        let at = self.arc_place(position as usize);
        Some(FileArc {
            source: whole_field(self.bytes, at),
            target: whole_field(self.bytes, at + 4),
            weight: whole_field(self.bytes, at + 8),
        })
    }

    // The first `count` nodes, in file sequence.
    pub(crate) fn first_nodes(&self, count: usize) -> Numbers<'a>
        requires { count ≤ length (nodes_of self.now.bytes.now) }
        ensures { numbers_in result.rest.now ≡ take count (nodes_of self.now.bytes.now) }
    {
        let begin = NODES_BEGIN as usize;
        Numbers {
            rest: &self.bytes[begin..begin + 4 * count],
        }
    }

    /// The nodes, in file sequence.
    pub fn nodes(&self) -> Numbers<'a>
        ensures { numbers_in result.rest.now ≡ nodes_of self.now.bytes.now }
    {
        self.first_nodes(self.node_count() as usize)
    }

    /// The arcs, in file sequence.
    pub fn arcs(&self) -> Arcs<'a>
        ensures { arcs_in (numbers_in result.numbers.rest.now) ≡ arcs_of self.now.bytes.now }
    {
        Arcs {
            numbers: Numbers {
                rest: &self.bytes[self.arcs_begin()..],
            },
        }
    }
}
