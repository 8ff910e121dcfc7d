ghost use Rattle.std.specs.Prelude.{◌≡◌, is_some, IfOk};
ghost use Rattle.graphmap.specs.Maps.{map_model};
ghost use Rattle.replay.specs.Steps.{edits_of};
ghost use Rattle.edit_records.specs.Reading.{texts, left_by};
ghost use Rattle.edit_records.specs.Records.{built_for, after_replay, after_run, agrees};

use crate::answers::after_answers;
use crate::map::after_map;
use crate::reading::{read_number, steps};
use crate::words::RecordWords;
use edit_lines::JunctionStep;
use graphmap::{GraphMap, OpenMap};
use heap_tables::MapTables;
use keys::Junction;
use replay::replay_edits;
use std::alloc::{AllocError, Global};

// The most places that a map can have.
const MOST_NODES: u32 = 4096;

const MOST_ARCS: u32 = 16384;

// The words after the answers of these steps, and after what this map shows.
fn after_replay<W: RecordWords>(
    words: W,
    steps: &[JunctionStep],
    map: OpenMap<'_, '_, Junction, u32>,
) -> Option<W>
    ensures { left_by W.words result ≡ after_replay steps.now (map_model map.entry.map.now) (W.words words) }
{
    after_map(after_answers(words, steps)?, map)
}

// Makes the edits on a map with so many places, as far as a map can have them, and compares.
fn replays_as<W: RecordWords>(
    alloc: Global,
    nodes: u32,
    arcs: u32,
    steps: &mut [JunctionStep],
    words: W,
) -> Result<bool, AllocError>
    ensures { IfOk result (λ same. same ≡ is_some (after_run (built_for nodes arcs) (edits_of steps.old) (W.words words))) }
{
    let nodes = nodes.min(MOST_NODES) as usize;
    let arcs = arcs.min(MOST_ARCS) as usize;
    let mut tables = MapTables::new(alloc, nodes, arcs)?;
    let mut map: GraphMap<'_, Junction, u32> = GraphMap::new();
    if map.with_capacity(&mut tables.places()).is_err() {
        return Ok(false);
    }
    replay_edits(&mut map, steps);
    Ok(after_replay(words, steps, map.open()).is_some())
}

// Whether the words of a record, after its first, agree.
pub(crate) fn agrees<W: RecordWords>(alloc: Global, words: W) -> Result<bool, AllocError>
    ensures { IfOk result (λ same. same ≡ agrees (W.words words)) }
{
    let Some((nodes, words)) = read_number(words) else {
        return Ok(false);
    };
    let Some((arcs, words)) = read_number(words) else {
        return Ok(false);
    };
    let Some((mut steps, words)) = steps(alloc, words)? else {
        return Ok(false);
    };
    replays_as(alloc, nodes, arcs, steps.as_mut_slice(), words)
}

/// Whether the words of a record, after its first, agree: the edits on a map just built with the recorded numbers of places
/// have the recorded answers, and leave a map that shows the recorded nodes and arcs. Words that are no record do not agree.
pub fn record(alloc: Global, words: &[&str]) -> Result<bool, AllocError>
    ensures { IfOk result (λ same. same ≡ agrees (texts words.now)) }
{
    agrees(alloc, words)
}
