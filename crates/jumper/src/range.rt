// A range of whole-number offsets, both ends in it; empty where its low end is above its high end.
ghost use Rattle.std.specs.Prelude.{◌≡◌, true, ◌↔◌, ℤ};
ghost use Rattle.jumper.specs.Limits.{AcceptedOffset};
ghost use Rattle.jumper.specs.Range.{Within, whole_range, is_empty, meet_of, range_numbers};

use crate::refusal::Numbers;

#[derive(Clone, Copy, Debug, PartialEq, Eq, Hash)]
pub struct OffsetRange {
    pub low: i32,
    pub high: i32,
}

impl OffsetRange {
    pub const LOWEST: i32 = -131070;

    pub const HIGHEST: i32 = 131070;

    // The range of every accepted offset.
    pub fn whole() -> Self
        ensures answer { result ≡ whole_range }
        ensures meaning { (d : ℤ) → Within d result ↔ AcceptedOffset d }
    {
        Self {
            low: Self::LOWEST,
            high: Self::HIGHEST,
        }
    }

    pub fn is_empty(self) -> bool
        ensures answer { result ≡ is_empty self }
        ensures meaning { (result ≡ true) ↔ ((d : ℤ) → Within d self → ⊥) }
    {
        self.high < self.low
    }

    #[inline]
    pub fn contains(self, offset: i32) -> bool
        ensures { (result ≡ true) ↔ Within offset self }
    {
        self.low <= offset && offset <= self.high
    }

    // The range of the offsets that both hold.
    pub fn meet(self, other: Self) -> Self
        ensures answer { result ≡ meet_of self other }
        ensures meaning { (d : ℤ) → Within d result ↔ (Within d self × Within d other) }
    {
        Self {
            low: self.low.max(other.low),
            high: self.high.min(other.high),
        }
    }
}

// A range told in numbers: its ends.
impl From<OffsetRange> for Numbers {
    ghost from_gives = { λ r n. n ≡ range_numbers r };

    fn from(r: OffsetRange) -> Numbers {
        Numbers {
            lowest: r.low,
            highest: r.high,
            ..Numbers::NOTHING
        }
    }
}
