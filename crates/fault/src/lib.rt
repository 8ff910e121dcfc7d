// The faults that a call can answer, each with its number and its place.

#![tactic(auto)]

ghost use Rattle.std.specs.Prelude.{◌≡◌, ◌≤◌, length, Some};
ghost use Rattle.arrayvec.specs.ArrayString.{array_string_len};
ghost use Rattle.decimal.specs.Outputs.{put_at};
ghost use Rattle.fault.specs.Faults.{number_of, place_of, refusal_text, refusal_line, length_if_room};

use arrayvec::ArrayString;
use itoa::Buffer;
use std::error::Error;
use std::fmt;

/// Why a call was refused. A case holds its place where it has one.
#[derive(Clone, Copy, PartialEq, Eq, Debug)]
pub enum Fault {
    /// 1: a map gets tables that do not fit it.
    TablesUnfit,
    /// 2: the new keys outnumber the free node places.
    NodesFull,
    /// 3: the arc is new and no arc place is free.
    ArcsFull,
    /// 4: a network file has 65,536 bytes or more.
    FileTooLarge,
    /// 4: a source to be ordered has over 16,384 arcs.
    SourceTooLarge,
    /// 5: the working tables of an ordering are too short.
    WorkTablesShort,
    /// 6: an end of the arc at this position has no place in the order.
    EndUnplaced(u32),
    /// 7: the answer has more bytes than the output.
    OutputShort,
    /// 8: a file of this length is too short, or its contents table gives another length.
    FileLength(u32),
    /// 9: the field at this byte has an offset or a count that is not allowed.
    FileField(u32),
    /// 10: the node record at this byte equals an earlier one.
    NodeRepeated(u32),
    /// 11: the end of an arc at this byte is in no node record.
    EndUnlisted(u32),
    /// 12: the arc record at this byte has the two ends of an earlier one.
    ArcRepeated(u32),
    /// 13: a lane address has a field out of range.
    LaneRange,
}

impl Fault {
    /// The number of the cause.
    pub fn number(&self) -> u32
        ensures { result ≡ number_of self.now }
    {
        match *self {
            Fault::TablesUnfit => 1,
            Fault::NodesFull => 2,
            Fault::ArcsFull => 3,
            Fault::FileTooLarge => 4,
            Fault::SourceTooLarge => 4,
            Fault::WorkTablesShort => 5,
            Fault::EndUnplaced(_) => 6,
            Fault::OutputShort => 7,
            Fault::FileLength(_) => 8,
            Fault::FileField(_) => 9,
            Fault::NodeRepeated(_) => 10,
            Fault::EndUnlisted(_) => 11,
            Fault::ArcRepeated(_) => 12,
            Fault::LaneRange => 13,
        }
    }

    // Each case is named, so that a new one is not passed over.
    /// The place that the cause concerns, or 0 where it concerns none.
    pub fn place(&self) -> u32
        ensures { result ≡ place_of self.now }
    {
        match *self {
            Fault::EndUnplaced(place)
            | Fault::FileLength(place)
            | Fault::FileField(place)
            | Fault::NodeRepeated(place)
            | Fault::EndUnlisted(place)
            | Fault::ArcRepeated(place) => place,
            Fault::TablesUnfit
            | Fault::NodesFull
            | Fault::ArcsFull
            | Fault::FileTooLarge
            | Fault::SourceTooLarge
            | Fault::WorkTablesShort
            | Fault::OutputShort
            | Fault::LaneRange => 0,
        }
    }

    // `refused N at P`, the refusal line without its end.
    fn text(&self) -> ArrayString<REFUSAL_ROOM>
        ensures text { result.bytes ≡ refusal_text self.now }
        ensures short { array_string_len result ≤ 32 }
    {
        let mut buffer = Buffer::new();
        let mut text = ArrayString::new();
        text.push_str("refused ");
        text.push_str(buffer.format(self.number()));
        text.push_str(" at ");
        text.push_str(buffer.format(self.place()));
        text
    }
}

/// Bytes that hold every refusal line: its words, ten digits for each of the two numbers, and byte 10.
pub const REFUSAL_ROOM: usize = 33;

/// `refused N at P`, with the number and the place of the fault.
impl fmt::Display for Fault {
    ghost output = { λ fault. Some (refusal_text fault) };

    fn fmt<W: fmt::Write>(&self, f: &mut fmt::Formatter<W>) -> fmt::Result {
        f.write_str(self.text().as_str())
    }
}

impl Error for Fault {}

/// Writes the line `refused N at P`, with the number and the place of `fault` and byte 10 at its end, at the start of
/// `out`, and answers its length. Where it does not fit the answer is `OutputShort`, and nothing is written.
#[tactic(auto, unfolding(crate::specs::Faults::refusal_line))]
pub fn write_refusal(fault: Fault, out: &mut [u8]) -> Result<usize, Fault>
    ensures answer { result ≡ length_if_room out.old (refusal_line fault) }
    ensures output { out.new ≡ put_at out.old 0 (refusal_line fault) }
    ensures short { length (refusal_line fault) ≤ 33 }
{
    let mut line = fault.text();
    line.push('\n');
    let length = line.len();
    if length > out.len() {
        return Err(Fault::OutputShort);
    }
    out[..length].copy_from_slice(line.as_str().as_bytes());
    Ok(length)
}
