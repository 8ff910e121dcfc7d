// The checks of a network file, one after another.

ghost use Rattle.std.specs.Prelude.{◌≡◌, ◌<◌, ◌≤◌, length, Ok, Err, MatchResult};
ghost use Rattle.network_file.specs.Checks.{expected, size_checked, table_checked, checked};
ghost use Rattle.network_file.specs.Laws.{Laws};
ghost use Rattle.network_file.specs.Reading.{contents_of};

use crate::fields::{FILE_LIMIT, NODES_BEGIN, field};
use crate::records::{check_ends, check_nodes};
use crate::view::NetworkFile;
use fault::Fault;

const MAX_NODES: u32 = 4096;

const MAX_ARCS: u32 = 32768;

// `then_some(()).ok_or(fault)` says it no plainer.
// Grants what holds, and refuses the rest with `fault`.
fn expect(holds: bool, fault: Fault) -> Result<(), Fault>
    ensures { result ≡ expected holds fault }
{
    if holds { Ok(()) } else { Err(fault) }
}

// The length of a file is below the limit, and holds a contents table.
#[tactic(auto, unfolding(crate::specs::Checks::size_checked))]
fn check_size(bytes: &[u8]) -> Result<(), Fault>
    ensures { result ≡ size_checked bytes.now }
{
    let length = bytes.len();
    if length >= FILE_LIMIT {
        return Err(Fault::FileTooLarge);
    }
    expect(
        length >= NODES_BEGIN as usize,
        Fault::FileLength(length as u32),
    )
}

// The fields of the contents table are right, and the file has the length that they give.
#[tactic(auto, using(crate::proofs::Layouts::read_is), unfolding(crate::specs::Checks::table_checked))]
fn check_table(bytes: &[u8]) -> Result<(), Fault>
    requires some { 16 ≤ length bytes.now }
    requires small { length bytes.now < 65536 }
    ensures { result ≡ table_checked bytes.now }
{
    expect(field(bytes, 0)? == NODES_BEGIN, Fault::FileField(0))?;
    let nodes = field(bytes, 4)?;
    expect(nodes <= MAX_NODES, Fault::FileField(4))?;
    expect(
        field(bytes, 8)? == NODES_BEGIN + 4 * nodes,
        Fault::FileField(8),
    )?;
    let arcs = field(bytes, 12)?;
    expect(arcs <= MAX_ARCS, Fault::FileField(12))?;
    let length = bytes.len() as u32;
    expect(
        length == NODES_BEGIN + 4 * nodes + 12 * arcs,
        Fault::FileLength(length),
    )
}

/// Checks a whole network file: its size, the contents table and the length that it gives, nodes that differ, and arcs
/// between them. Answers the view of the file, or the first fault.
#[tactic(auto, using(crate::proofs::Lawful::laws, crate::proofs::Granted::whole, crate::proofs::Granted::size_facts), unfolding(crate::specs::Checks::checked))]
pub fn check(bytes: &[u8]) -> Result<NetworkFile<'_>, Fault>
    ensures answer { MatchResult result (λ file. (file.bytes.now ≡ bytes.now) × (checked bytes.now ≡ Ok (contents_of file.bytes.now))) (λ fault. checked bytes.now ≡ Err fault) }
    ensures laws { Laws bytes.now }
{
    check_size(bytes)?;
    check_table(bytes)?;
    let file = NetworkFile { bytes };
    check_nodes(file)?;
    check_ends(file)?;
    Ok(file)
}
