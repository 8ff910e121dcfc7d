// What the words of a record can be read from.

ghost use Rattle.std.specs.Prelude.{◌≡◌, [], ◌∷◌, MatchOption};
ghost use Rattle.edit_records.specs.Reading.{Words, texts, texts_in_line};

use edit_lines::LineWords;

/// Words that are read one by one.
pub(crate) trait RecordWords: Copy {
    /// The words that are still to be read.
    ghost words: { Self → Words };

    /// The next word, and the words after it; none after the last.
    fn split_first(&self) -> Option<(&str, Self)>
        ensures { MatchOption result (words self.now ≡ []) (λ first. words self.now ≡ first.0.now ∷ words first.1) };
}

impl<'w, 'a> RecordWords for &'w [&'a str] {
    ghost words = { λ words. texts words.now };

    fn split_first(&self) -> Option<(&str, Self)> {
        let (word, rest) = (**self).split_first()?;
        Some((*word, rest))
    }
}

impl<'a> RecordWords for LineWords<'a> {
    ghost words = { texts_in_line };

    fn split_first(&self) -> Option<(&str, Self)> {
        LineWords::split_first(*self)
    }
}
