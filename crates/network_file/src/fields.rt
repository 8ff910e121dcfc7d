// Fields of a network file: 32 bits, the low byte first.

ghost use Rattle.std.specs.Prelude.{◌≡◌, ◌+◌, ◌<◌, ◌≤◌, length, drop, MatchOption};
ghost use Rattle.network_file.specs.Checks.{has};
ghost use Rattle.network_file.specs.Fields.{field_at, field_read};
ghost use Rattle.network_file.specs.Reading.{numbers_in};

use fault::Fault;

/// A network file is shorter than this many bytes.
pub const FILE_LIMIT: usize = 65536;

// The bytes of the contents table, and so where the nodes begin.
pub(crate) const NODES_BEGIN: u32 = 16;

// The field at `at`, which the bytes hold whole.
#[tactic(auto, unfolding(crate::specs::Fields::byte_at, crate::specs::Fields::field_at))]
pub(crate) fn whole_field(bytes: &[u8], at: usize) -> u32
    requires { at + 4 ≤ length bytes.now }
    ensures { result ≡ field_at bytes.now at }
{
    u32::from_le_bytes([bytes[at], bytes[at + 1], bytes[at + 2], bytes[at + 3]])
}

// The first field of some bytes, and the bytes after it.
#[tactic(auto, using(crate::proofs::Walks::first_field))]
pub(crate) fn split_field(bytes: &[u8]) -> Option<(u32, &[u8])>
    ensures { MatchOption result (length bytes.now < 4) (λ first. (4 ≤ length bytes.now) × (first.0 ≡ field_at bytes.now 0) × (first.1.now ≡ drop 4 bytes.now)) }
{
    let (field, rest) = bytes.split_first_chunk()?;
    Some((u32::from_le_bytes(*field), rest))
}

// Whether one of the whole fields of some bytes is `number`.
pub(crate) fn has_field(bytes: &[u8], number: u32) -> bool
    ensures { result ≡ has (numbers_in bytes.now) number }
{
    let (fields, _) = bytes.as_chunks();
    // This compiles to vector code, and `any` does not.
    for field in fields {
        if u32::from_le_bytes(*field) == number {
            return true;
        }
    }
    false
}

/// The field of the file `bytes` that begins at byte `at`. A file of 65,536 bytes or more has no fields
/// (`FileTooLarge`), and a field that the file does not hold whole is refused with the file's length (`FileLength`).
#[tactic(auto, using(crate::proofs::Walks::field_part))]
pub fn field(bytes: &[u8], at: usize) -> Result<u32, Fault>
    ensures { result ≡ field_read bytes.now at }
{
    let length = bytes.len();
    if length >= FILE_LIMIT {
        return Err(Fault::FileTooLarge);
    }
    let Some((field, _)) = bytes.get(at..).and_then(split_field) else {
        return Err(Fault::FileLength(length as u32));
    };
    Ok(field)
}
