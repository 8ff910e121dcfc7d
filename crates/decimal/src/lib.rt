// Numbers written in decimal.

#![tactic(auto)]

ghost use Rattle.std.specs.Prelude.{◌≡◌, length, if◌then◌else◌, Some, None};
ghost use Rattle.decimal.specs.Digits.{digits, OnlyNumeral};
ghost use Rattle.decimal.specs.Outputs.{fits_at, put_at};

use itoa::Buffer;

/// Writes `n` in decimal into `out` from `at` on, with no zeros in front, and answers how many bytes that took.
/// Where they do not fit the answer is `None`, and nothing is written.
#[tactic(auto, using(crate::proofs::Writing::same_as_decimal, crate::proofs::Numerals::only_numeral))]
pub fn write_decimal(out: &mut [u8], at: usize, n: u32) -> Option<usize>
    ensures answer { result ≡ (if fits_at out.old at (digits n) then Some (length (digits n)) else None) }
    ensures output { out.new ≡ put_at out.old at (digits n) }
    ensures numeral { OnlyNumeral n }
{
    let mut buffer = Buffer::new();
    let digits = buffer.format(n).as_bytes();
    let end = at.checked_add(digits.len())?;
    if end > out.len() {
        return None;
    }
    out[at..end].copy_from_slice(digits);
    Some(digits.len())
}
