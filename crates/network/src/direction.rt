ghost use Rattle.std.specs.Prelude.{◌≡◌};
ghost use Rattle.network.specs.Directions.{opposite};

/// From which of its two ends an arc is seen.
#[derive(Clone, Copy, PartialEq, Eq, Debug)]
pub enum CompactDirection {
    /// From its source: the arc goes out.
    Outgoing,
    /// From its target: the arc comes in.
    Incoming,
}

impl CompactDirection {
    /// Return the opposite `CompactDirection`.
    pub fn opposite(self) -> CompactDirection
        ensures { result ≡ opposite self }
    {
        match self {
            CompactDirection::Outgoing => CompactDirection::Incoming,
            CompactDirection::Incoming => CompactDirection::Outgoing,
        }
    }
}
