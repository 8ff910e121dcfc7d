// The calls on the words of a line.

ghost use Rattle.std.specs.Prelude.{◌≡◌, IfOk};
ghost use Rattle.edit_records.specs.Reading.{texts_in_line, read_in_line, left_in_line, number_at};
ghost use Rattle.edit_records.specs.Showing.{after_number};
ghost use Rattle.edit_records.specs.Records.{agrees};

use crate::answers::after_value;
use crate::reading::read_number;
use crate::records::agrees;
use edit_lines::LineWords;
use std::alloc::{AllocError, Global};

/// The recorded number that the words of a line begin with, and the words after it.
pub fn number_in_line<'a>(words: LineWords<'a>) -> Option<(u32, LineWords<'a>)>
    ensures { read_in_line result ≡ number_at (texts_in_line words.entry) }
{
    read_number(words)
}

/// The words of a line after a recorded number, where it is this one.
pub fn after_number_in_line<'a>(words: LineWords<'a>, value: u32) -> Option<LineWords<'a>>
    ensures { left_in_line result ≡ after_number value (texts_in_line words.entry) }
{
    after_value(words, value)
}

/// Whether the words of a line, after its first, are those of a record that agrees (see `record`).
pub fn record_in_line(alloc: Global, words: LineWords<'_>) -> Result<bool, AllocError>
    ensures { IfOk result (λ same. same ≡ agrees (texts_in_line words.entry)) }
{
    agrees(alloc, words)
}
