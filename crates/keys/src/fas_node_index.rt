ghost use Rattle.std.specs.Prelude.{◌≡◌, ◌^◌, ◌<◌};

/// Counts the working entries of an ordering. It names no node.
#[derive(Clone, Copy, PartialEq, Eq, Debug)]
pub struct FasNodeIndex {
    value: u32,
    ghost small: { value < 2 ^ 32 },
}

impl FasNodeIndex {
    pub fn new(value: u32) -> FasNodeIndex
        ensures { result.value ≡ value }
    {
        FasNodeIndex { value }
    }

    pub fn get(&self) -> u32
        ensures { result ≡ self.now.value }
    {
        self.value
    }
}
