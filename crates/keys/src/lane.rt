ghost use Rattle.std.specs.Prelude.{◌≡◌, ℕ, ◌+◌, ◌*◌, ◌^◌, ◌<◌, true, false, Some, Ok, Err};
ghost use Rattle.fault.specs.declared.Fault.TheVariants.{LaneRange};
ghost use Rattle.keys.specs.Numbers.{lane_index, lane_in_range};
ghost use Rattle.keys.specs.Texts.{lane_text, record_text};
ghost use Rattle.std.proofs.Common.{rules, arith};

use crate::key::{Key, NodeKey};
use crate::node_index::NodeIndex;
use fault::Fault;
use std::fmt;

/// A lane of an arm of a junction: junction 0 to 16,777,215, arm 0 to 15, lane 0 to 15. No other address exists.
#[derive(Clone, Copy, PartialEq, Eq, Debug)]
pub struct LaneAddress {
    junction: u32,
    arm: u8,
    lane: u8,
    ghost near: { junction < 2 ^ 24 },
    ghost few: { arm < 16 },
    ghost slim: { lane < 16 },
}

impl LaneAddress {
    /// The address with these fields, or fault 13 where one is out of range.
    pub fn new(junction: u32, arm: u8, lane: u8) -> Result<LaneAddress, Fault>
        ensures { elim result [ Ok a ↦ (lane_in_range junction arm lane ≡ true) × (a.junction ≡ junction) × (a.arm ≡ arm) × (a.lane ≡ lane) | Err e ↦ (lane_in_range junction arm lane ≡ false) × (e ≡ LaneRange) ] }
    {
        if junction < 16_777_216 && arm < 16 && lane < 16 {
            Ok(LaneAddress {
                junction,
                arm,
                lane,
            })
        } else {
            Err(Fault::LaneRange)
        }
    }

    pub fn junction(&self) -> u32
        ensures { result ≡ self.now.junction }
    {
        self.junction
    }

    pub fn arm(&self) -> u8
        ensures { result ≡ self.now.arm }
    {
        self.arm
    }

    pub fn lane(&self) -> u8
        ensures { result ≡ self.now.lane }
    {
        self.lane
    }

    fn packed(&self) -> u32
        ensures { result ≡ lane_index self.now.junction self.now.arm self.now.lane }
    {
        let LaneAddress {
            junction,
            arm,
            lane,
        } = *self;
        junction * 256 + u32::from(arm) * 16 + u32::from(lane)
    }
}

impl Key for LaneAddress {
    ghost code = { λ a. lane_index a.junction a.arm a.lane };

    ghost small = { Prim.search rules };

    ghost apart = { Prim.grind (arith, Self.row.coded.inj) };

    fn number(&self) -> u64 {
        u64::from(self.packed())
    }
}

impl NodeKey for LaneAddress {
    ghost index = { λ a. lane_index a.junction a.arm a.lane };

    ghost narrow = { Prim.search rules };

    ghost differs = { Prim.grind (arith, Self.row.coded.inj) };

    ghost numbered = { Prim.search rules };

    fn node_index(&self) -> NodeIndex {
        NodeIndex::new(self.packed())
    }
}

// junction/arm/lane
impl fmt::Display for LaneAddress {
    ghost output = { λ a. Some (lane_text a.junction a.arm a.lane) };

    fn fmt<W: fmt::Write>(&self, f: &mut fmt::Formatter<W>) -> fmt::Result {
        let LaneAddress {
            junction,
            arm,
            lane,
        } = *self;
        write!(f, "{junction}/{arm}/{lane}")
    }
}

/// What an arc between lane addresses carries: how many lanes, and which share of the traffic turns this way, in thousandths.
#[derive(Clone, Copy, PartialEq, Eq, Debug)]
pub struct LaneRecord {
    pub lanes: u32,
    pub turning_share: u32,
}

// lanes,turning_share
impl fmt::Display for LaneRecord {
    ghost output = { λ r. Some (record_text r.lanes r.turning_share) };

    fn fmt<W: fmt::Write>(&self, f: &mut fmt::Formatter<W>) -> fmt::Result {
        let LaneRecord {
            lanes,
            turning_share,
        } = *self;
        write!(f, "{lanes},{turning_share}")
    }
}
