// Recorded orders: the nodes in their sequence and the positions of the held arcs.

use edit_lines::LineWords;
use edit_records::{after_number_in_line, number_in_line};
use feedback_arc_set::Ordering;
use heap_tables::WorkTables;
use keys::{Junction, Key};
use network::{Arc, ArcSlice};
use std::alloc::{AllocError, Global};

type JunctionArc = Arc<Junction, u32>;

// The most arcs that are ordered.
const MOST_ARCS: u32 = 16384;

// The words after the nodes of an order, where they are the recorded ones, and no more.
fn after_order<'a>(words: LineWords<'a>, ordering: &Ordering<'_>) -> Option<LineWords<'a>> {
    let (mut count, mut rest) = number_in_line(words)?;
    for node in ordering.nodes() {
        count = count.checked_sub(1)?;
        rest = after_number_in_line(rest, node.get())?;
    }
    (count == 0).then_some(rest)
}

// The words after the positions of the held arcs, where they are the recorded ones, and no more.
fn after_held<'a>(
    words: LineWords<'a>,
    ordering: &Ordering<'_>,
    source: &ArcSlice<'_, Junction, u32>,
) -> Option<LineWords<'a>> {
    let mut held = ordering.held(source).ok()?;
    let (count, mut rest) = number_in_line(words)?;
    for _ in 0..count {
        rest = after_number_in_line(rest, held.next(source)?.position)?;
    }
    held.next(source).is_none().then_some(rest)
}

// Orders the arcs of a record in tables that are just large enough, and compares.
fn orders_as(heap: Global, arcs: &[JunctionArc], words: LineWords<'_>) -> Result<bool, AllocError> {
    let count = arcs.len().min(MOST_ARCS as usize);
    let mut tables = WorkTables::new(heap, 2 * count, count)?;
    let mut ordering = tables.ordering();
    let Some(source) = ArcSlice::new(arcs) else {
        return Ok(false);
    };
    if ordering.greedy_feedback_arc_set(&source).is_err() {
        return Ok(false);
    }
    let Some(rest) = after_order(words, &ordering) else {
        return Ok(false);
    };
    Ok(after_held(rest, &ordering, &source).is_some())
}

// The arc that the words begin with, and the words after it.
fn arc<'a>(words: LineWords<'a>) -> Option<(JunctionArc, LineWords<'a>)> {
    let (source, words) = number_in_line(words)?;
    let (target, words) = number_in_line(words)?;
    let arc = Arc {
        source: Junction::new(source),
        target: Junction::new(target),
        weight: 0,
    };
    Some((arc, words))
}

// A count and so many arcs, and the words after them.
fn arcs<'a>(
    heap: Global,
    words: LineWords<'a>,
) -> Result<Option<(Vec<JunctionArc>, LineWords<'a>)>, AllocError> {
    let Some((count, mut rest)) = number_in_line(words) else {
        return Ok(None);
    };
    let mut arcs: Vec<JunctionArc> = Vec::new(heap);
    for _ in 0..count {
        let Some((arc, after)) = arc(rest) else {
            return Ok(None);
        };
        arcs.push(arc)?;
        rest = after;
    }
    Ok(Some((arcs, rest)))
}

/// Whether the words of a record of an order, after its first, agree; words that are no record do not.
pub fn record(heap: Global, words: LineWords<'_>) -> Result<bool, AllocError> {
    let Some((arcs, words)) = arcs(heap, words)? else {
        return Ok(false);
    };
    orders_as(heap, arcs.as_slice(), words)
}
