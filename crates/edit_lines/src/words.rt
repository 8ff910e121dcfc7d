ghost use Rattle.std.specs.Prelude.{◌≡◌, [], ◌∷◌, MatchOption};
ghost use Rattle.edit_lines.specs.Words.{words_in, words_left};

/// The words of a line that are still to be read. They stand one space apart, so an empty line has one word, the empty one.
#[derive(Clone, Copy)]
pub struct LineWords<'a> {
    // the line from the next word on; none after the last word
    rest: Option<&'a str>,
}

impl<'a> LineWords<'a> {
    /// All words of a line.
    pub fn new(line: &'a str) -> LineWords<'a>
        ensures { words_left result ≡ words_in line.now }
    {
        LineWords { rest: Some(line) }
    }

    /// The next word, and the words after it; none after the last.
    #[tactic(auto, using(crate::proofs::Cuts::cut, crate::proofs::Cuts::whole))]
    pub fn split_first(self) -> Option<(&'a str, LineWords<'a>)>
        ensures { MatchOption result (words_left self.entry ≡ []) (λ first. words_left self.entry ≡ first.0.now ∷ words_left first.1) }
    {
        let rest = self.rest?;
        match rest.split_once(' ') {
            Some((word, rest)) => Some((word, LineWords { rest: Some(rest) })),
            None => Some((rest, LineWords { rest: None })),
        }
    }
}
