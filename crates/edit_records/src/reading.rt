ghost use Rattle.std.specs.Prelude.{◌≡◌, ◌^◌, IfOk};
ghost use Rattle.std.specs.Option.{option_map};
ghost use Rattle.replay.specs.Steps.{edits_of};
ghost use Rattle.edit_records.specs.Reading.{texts, read, read_by, recorded_number, number_at, junction_at, edit_at, edits_at};

use crate::words::RecordWords;
use edit_lines::{JunctionEdit, JunctionStep};
use keys::Junction;
use map_model::Edit;
use replay::Step;
use std::alloc::{AllocError, Global};

// The number below 2^32 that the digits of a word write, however many; an empty word is 0.
fn recorded_number(word: &str) -> Option<u32>
    ensures { result ≡ recorded_number word.now }
{
    if word.is_empty() {
        return Some(0);
    }
    if word.starts_with('+') {
        return None;
    }
    word.parse().ok()
}

// The recorded number that the words begin with, and the words after it. Inlined, since a call would pass the words through memory.
#[inline(always)]
pub(crate) fn read_number<W: RecordWords>(words: W) -> Option<(u32, W)>
    ensures { read_by W.words result ≡ number_at (W.words words) }
{
    let (word, rest) = words.split_first()?;
    Some((recorded_number(word)?, rest))
}

/// The recorded number that the words begin with, and the words after it.
pub fn number<'w, 'a>(words: &'w [&'a str]) -> Option<(u32, &'w [&'a str])>
    ensures { read result ≡ number_at (texts words.now) }
{
    read_number(words)
}

// The junction of a recorded number, and the words after it.
fn junction<W: RecordWords>(words: W) -> Option<(Junction, W)>
    ensures { read_by W.words result ≡ junction_at (W.words words) }
{
    let (value, rest) = read_number(words)?;
    Some((Junction::new(value), rest))
}

// The edit that the words begin with, and the words after it.
fn edit<W: RecordWords>(words: W) -> Option<(JunctionEdit, W)>
    ensures { read_by W.words result ≡ edit_at (W.words words) }
{
    let (verb, words) = words.split_first()?;
    let (first, words) = junction(words)?;
    match verb {
        "n" => Some((Edit::AddNode(first), words)),
        "r" => Some((Edit::RemoveNode(first), words)),
        "x" => {
            let (second, words) = junction(words)?;
            Some((Edit::RemoveEdge(first, second), words))
        }
        "a" => {
            let (second, words) = junction(words)?;
            let (weight, words) = read_number(words)?;
            Some((Edit::AddEdge(first, second, weight), words))
        }
        _ => None,
    }
}

// A count and so many edits, as the steps of a replay, and the words after them.
pub(crate) fn steps<W: RecordWords>(
    alloc: Global,
    words: W,
) -> Result<Option<(Vec<JunctionStep>, W)>, AllocError>
    ensures { IfOk result (λ steps. option_map (λ r. (edits_of r.0.items, W.words r.1)) steps ≡ edits_at (W.words words)) }
{
    // A pair is taken apart on a line of its own: words that the pattern of `Some` takes out of it have a name in the loop that no proof can cite.
    let Some(counted) = read_number(words) else {
        return Ok(None);
    };
    let (count, mut rest) = counted;
    let mut steps: Vec<JunctionStep> = Vec::new(alloc);
    for _ in 0..count {
        let Some(read) = edit(rest) else {
            return Ok(None);
        };
        let (edit, after) = read;
        steps.push(Step { edit, answer: None })?;
        rest = after;
    }
    Ok(Some((steps, rest)))
}
