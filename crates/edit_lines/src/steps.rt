ghost use Rattle.std.specs.Prelude.{◌≡◌, ◌++◌, OnOk, string_bytes};
ghost use Rattle.std.specs.List.{flat_map};
ghost use Rattle.edit_lines.specs.Lines.{edit_text, answer_text, step_line};

use keys::Junction;
use map_model::{Answer, Edit};
use replay::Step;
use std::alloc::AllocError;
use std::fmt::Write;

/// An edit of a map of junctions with 32-bit weights.
pub type JunctionEdit = Edit<Junction, u32>;

/// An edit of such a map, and what it answered.
pub type JunctionStep = Step<Junction, u32>;

fn write_edit(out: &mut String, edit: JunctionEdit) -> Result<(), AllocError>
    ensures { OnOk result (string_bytes out.new ≡ string_bytes out.old ++ edit_text edit) }
{
    match edit {
        Edit::AddNode(n) => write!(out, "node {n}"),
        Edit::AddEdge(a, b, weight) => write!(out, "arc {a} {b} {weight}"),
        Edit::RemoveNode(n) => write!(out, "remove-node {n}"),
        Edit::RemoveEdge(a, b) => write!(out, "remove-arc {a} {b}"),
    }
}

fn write_answer(out: &mut String, answer: Answer<Junction, u32>) -> Result<(), AllocError>
    ensures { OnOk result (string_bytes out.new ≡ string_bytes out.old ++ answer_text answer) }
{
    match answer {
        Answer::NodeAdded(Ok(_)) => write!(out, "granted"),
        Answer::NodeAdded(Err(fault)) => write!(out, "{fault}"),
        Answer::EdgeAdded(Ok(None)) => write!(out, "new"),
        Answer::EdgeAdded(Ok(Some(old))) => write!(out, "was {old}"),
        Answer::EdgeAdded(Err(fault)) => write!(out, "{fault}"),
        Answer::NodeRemoved(true) => write!(out, "removed"),
        Answer::NodeRemoved(false) => write!(out, "absent"),
        Answer::EdgeRemoved(Some(old)) => write!(out, "was {old}"),
        Answer::EdgeRemoved(None) => write!(out, "absent"),
    }
}

fn write_step(out: &mut String, step: JunctionStep) -> Result<(), AllocError>
    ensures { OnOk result (string_bytes out.new ≡ string_bytes out.old ++ step_line step) }
{
    write_edit(out, step.edit)?;
    write!(out, ": ")?;
    if let Some(answer) = step.answer {
        write_answer(out, answer)?;
    }
    writeln!(out, "")
}

/// Writes each edit with its answer, on a line of its own.
pub fn write_steps(out: &mut String, steps: &[JunctionStep]) -> Result<(), AllocError>
    ensures { OnOk result (string_bytes out.new ≡ string_bytes out.old ++ flat_map step_line steps.now) }
{
    for step in steps {
        write_step(out, *step)?;
    }
    Ok(())
}
