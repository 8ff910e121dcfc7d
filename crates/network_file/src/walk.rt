// What the fields of a part of a file hold, one after another.

ghost use Rattle.std.specs.Iterator.{YieldsFirst, item_count};
ghost use Rattle.network_file.specs.Reading.{numbers_in, arcs_in};

use crate::arc::FileArc;
use crate::fields::split_field;

/// The numbers of the fields of a part of a file, in sequence.
#[derive(Clone, Copy)]
pub struct Numbers<'a> {
    pub(crate) rest: &'a [u8],
}

#[tactic(auto, using(crate::proofs::Walks::numbers_next, crate::proofs::Walks::numbers_over))]
impl Iterator for Numbers<'_> {
    type Item = u32;

    ghost next_gives = { YieldsFirst (λ s. numbers_in s.rest.now) };

    ghost remaining = { item_count (λ s. numbers_in s.rest.now) };

    fn next(&mut self) -> Option<u32> {
        let (number, rest) = split_field(self.rest)?;
        self.rest = rest;
        Some(number)
    }
}

/// The arcs whose records are a part of a file, in sequence.
#[derive(Clone, Copy)]
pub struct Arcs<'a> {
    pub(crate) numbers: Numbers<'a>,
}

impl Iterator for Arcs<'_> {
    type Item = FileArc;

    ghost next_gives = { YieldsFirst (λ s. arcs_in (numbers_in s.numbers.rest.now)) };

    ghost remaining = { item_count (λ s. arcs_in (numbers_in s.numbers.rest.now)) };

    fn next(&mut self) -> Option<FileArc> {
        let source = self.numbers.next()?;
        let target = self.numbers.next()?;
        let weight = self.numbers.next()?;
        Some(FileArc {
            source,
            target,
            weight,
        })
    }
}
