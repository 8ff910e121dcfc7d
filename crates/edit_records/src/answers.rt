ghost use Rattle.std.specs.Prelude.{◌≡◌};
ghost use Rattle.fault.specs.Faults.{number_of};
ghost use Rattle.edit_records.specs.Reading.{texts, left, left_by};
ghost use Rattle.edit_records.specs.Showing.{after, after_heading, after_number, after_weight, after_refusal, after_answer, after_answered, after_answers};

use crate::reading::read_number;
use crate::words::RecordWords;
use edit_lines::JunctionStep;
use fault::Fault;
use keys::Junction;
use map_model::Answer;

// The words after this word, where they begin with it.
fn after<W: RecordWords>(words: W, word: &str) -> Option<W>
    ensures { left_by W.words result ≡ after word.now (W.words words) }
{
    let (first, rest) = words.split_first()?;
    (first == word).then_some(rest)
}

pub(crate) fn after_heading<W: RecordWords>(words: W, word: &str) -> Option<W>
    ensures { left_by W.words result ≡ after_heading word.now (W.words words) }
{
    after(after(words, "|")?, word)
}

// The words after a recorded number, where it is this one.
pub(crate) fn after_value<W: RecordWords>(words: W, value: u32) -> Option<W>
    ensures { left_by W.words result ≡ after_number value (W.words words) }
{
    let (recorded, rest) = read_number(words)?;
    (recorded == value).then_some(rest)
}

/// The words after a recorded number, where it is this one.
pub fn after_number<'w, 'a>(words: &'w [&'a str], value: u32) -> Option<&'w [&'a str]>
    ensures { left result ≡ after_number value (texts words.now) }
{
    after_value(words, value)
}

fn after_weight<W: RecordWords>(words: W, weight: u32) -> Option<W>
    ensures { left_by W.words result ≡ after_weight weight (W.words words) }
{
    after_value(after(words, "w")?, weight)
}

fn after_refusal<W: RecordWords>(words: W, fault: Fault) -> Option<W>
    ensures { left_by W.words result ≡ after_refusal (number_of fault) (W.words words) }
{
    match fault {
        Fault::NodesFull => after(words, "f2"),
        Fault::ArcsFull => after(words, "f3"),
        _ => None,
    }
}

// The words after what an edit answered, where it is what the words say.
fn after_answer<W: RecordWords>(words: W, answer: Answer<Junction, u32>) -> Option<W>
    ensures { left_by W.words result ≡ after_answer answer (W.words words) }
{
    match answer {
        Answer::NodeAdded(Ok(_)) => after(words, "g"),
        Answer::NodeAdded(Err(fault)) => after_refusal(words, fault),
        Answer::EdgeAdded(Ok(None)) => after(words, "new"),
        Answer::EdgeAdded(Ok(Some(old))) => after_weight(words, old),
        Answer::EdgeAdded(Err(fault)) => after_refusal(words, fault),
        Answer::NodeRemoved(true) => after(words, "gone"),
        Answer::NodeRemoved(false) => after(words, "absent"),
        Answer::EdgeRemoved(Some(old)) => after_weight(words, old),
        Answer::EdgeRemoved(None) => after(words, "absent"),
    }
}

fn after_answered<W: RecordWords>(words: W, step: JunctionStep) -> Option<W>
    ensures { left_by W.words result ≡ after_answered step.answer (W.words words) }
{
    match step.answer {
        Some(answer) => after_answer(words, answer),
        None => Some(words),
    }
}

// The words after the answers of these steps, where they are what the words say.
pub(crate) fn after_answers<W: RecordWords>(words: W, steps: &[JunctionStep]) -> Option<W>
    ensures { left_by W.words result ≡ after_answers steps.now (W.words words) }
{
    let mut rest = after_heading(words, "answers")?;
    for step in steps {
        rest = after_answered(rest, *step)?;
    }
    Some(rest)
}
