// Reads a network file from the standard input, and prints what it holds or why it is refused.

#![tactic(auto)]

ghost use Rattle.std.specs.Prelude.{◌≡◌, ◌≤◌, length, Some, is_ok, IfOk};
ghost use Rattle.inspect.specs.Report.{contents_text, told, answer_of, report};
ghost use Rattle.network_file.specs.Checks.{checked};
ghost use Rattle.network_file.specs.Reading.{contents_of};

use anyhow::ensure;
use fault::Fault;
use network_file::{FILE_LIMIT, NetworkFile, check};
use std::io::Read;
use std::{fmt, io};

// What a network file holds: the counts, then a line for each node and each arc in file sequence.
#[derive(Clone, Copy)]
struct Contents<'a>(NetworkFile<'a>);

impl fmt::Display for Contents<'_> {
    ghost output = { λ s. Some (contents_text (contents_of s.0.bytes.now)) };

    fn fmt<W: fmt::Write>(&self, f: &mut fmt::Formatter<W>) -> fmt::Result {
        let nodes = self.0.node_count();
        let arcs = self.0.arc_count();
        writeln!(f, "nodes {nodes} arcs {arcs}")?;
        for node in self.0.nodes() {
            writeln!(f, "node {node}")?;
        }
        for arc in self.0.arcs() {
            writeln!(f, "arc {} {} {}", arc.source, arc.target, arc.weight)?;
        }
        Ok(())
    }
}

// What is told of some bytes: how many were read, and what the file holds or why it is refused.
#[derive(Clone, Copy)]
struct Report<'a> {
    length: usize,
    answer: Result<NetworkFile<'a>, Fault>,
}

impl<'a> Report<'a> {
    fn new(bytes: &'a [u8]) -> Self
        requires { length bytes.now ≤ 65536 }
        ensures told { told result.length (answer_of result.answer) ≡ report bytes.now }
        ensures granted { is_ok result.answer ≡ is_ok (checked bytes.now) }
    {
        Report {
            length: bytes.len(),
            answer: check(bytes),
        }
    }
}

impl fmt::Display for Report<'_> {
    ghost output = { λ s. Some (told s.length (answer_of s.answer)) };

    fn fmt<W: fmt::Write>(&self, f: &mut fmt::Formatter<W>) -> fmt::Result {
        let length = self.length;
        writeln!(f, "read {length} bytes")?;
        match self.answer {
            Ok(file) => write!(f, "{}", Contents(file)),
            Err(fault) => writeln!(f, "{fault}"),
        }
    }
}

// Fills `bytes` from the standard input, and answers how many came.
fn read_file(rt: &HostRuntime, bytes: &mut [u8]) -> io::Result<usize>
    ensures { IfOk result (λ n. n ≤ length bytes.old) }
{
    let mut length = 0;
    while length < bytes.len() {
        let got = rt.stdin().read(&mut bytes[length..])?;
        if got == 0 {
            break;
        }
        length += got;
    }
    Ok(length)
}

fn main(rt: HostRuntime) -> anyhow::Result<()> {
    let mut bytes = [0; FILE_LIMIT];
    let length = read_file(&rt, &mut bytes)?;
    let report = Report::new(&bytes[..length]);
    let text = format!(in rt.alloc(); "{report}")?;
    rt.write_all(text.as_bytes())?;
    ensure!(report.answer.is_ok(), "refused");
    Ok(())
}
