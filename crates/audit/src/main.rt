// Replays a list of edits from the standard input, and prints what each did and what the map then shows.

#![tactic(auto)]

use anyhow::anyhow;
use edit_lines::{JunctionStep, edit, number, write_map, write_steps};
use fault::Fault;
use graphmap::GraphMap;
use heap_tables::MapTables;
use keys::{Junction, Key};
use replay::{Step, replay_edits};
use std::alloc::Global;
use std::env;
use std::fmt::Write;
use std::io::{BufRead, BufReader};

// One more than a map can have, so that it is the map that refuses.
const MOST_NODES: u32 = 4097;

const MOST_ARCS: u32 = 16385;

// This, `argument` and `run` stand in `audit_order` too: they work with the handle, of which no contract of a shared call could speak.
// The edits of all lines, or the number of the first line that is none.
fn read_steps(rt: &HostRuntime, steps: &mut Vec<JunctionStep>) -> anyhow::Result<Option<u64>> {
    let lines = BufReader::new(rt.alloc(), rt.stdin())?.lines(rt.alloc());
    for (line, count) in lines.zip(1u64..) {
        match edit(line?.as_str()) {
            Some(edit) => steps.push(Step { edit, answer: None })?,
            None => return Ok(Some(count)),
        }
    }
    Ok(None)
}

// Replays the edits on a map with so many places, and answers whether it can have them.
fn audit(
    heap: Global,
    nodes: u32,
    arcs: u32,
    steps: &mut [JunctionStep],
    out: &mut String,
) -> anyhow::Result<Result<(), Fault>> {
    let nodes = nodes.min(MOST_NODES) as usize;
    let arcs = arcs.min(MOST_ARCS) as usize;
    let mut tables = MapTables::new(heap, nodes, arcs)?;
    let mut map: GraphMap<'_, Junction, u32> = GraphMap::new();
    if let Err(fault) = map.with_capacity(&mut tables.places()) {
        return Ok(Err(fault));
    }
    replay_edits(&mut map, steps);
    write_steps(out, steps)?;
    write_map(out, map.open())?;
    Ok(Ok(()))
}

// The number in an argument, or `default` where there is none.
fn argument(word: Option<String>, default: u32) -> anyhow::Result<u32> {
    let Some(word) = word else {
        return Ok(default);
    };
    number(word.as_str()).ok_or(anyhow!("not a number of places"))
}

fn run(rt: &HostRuntime) -> anyhow::Result<()> {
    let heap = rt.alloc();
    let mut arguments = env::args(rt)?;
    let _program = arguments.next();
    let nodes = argument(arguments.next(), 4096)?;
    let arcs = argument(arguments.next(), 16384)?;
    let mut steps: Vec<JunctionStep> = Vec::new(heap);
    if let Some(line) = read_steps(rt, &mut steps)? {
        println!(rt; "line {line}: not an edit")?;
        return Err(anyhow!("not an edit"));
    }
    let mut out = String::new(heap);
    let done = audit(heap, nodes, arcs, steps.as_mut_slice(), &mut out)?;
    if let Err(fault) = done {
        writeln!(&mut out, "{fault}")?;
    }
    rt.print(out.as_str())?;
    done.map_err(|_| anyhow!("refused"))
}

fn main(rt: HostRuntime) -> anyhow::Result<()> {
    run(&rt)
}
