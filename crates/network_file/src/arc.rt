// An arc as a network file has it.

/// An arc of a network file: it runs from `source` to `target`.
#[derive(Clone, Copy, PartialEq, Eq, Debug)]
pub struct FileArc {
    pub source: u32,
    pub target: u32,
    pub weight: u32,
}
