//! How far regions reach.

ghost use Rattle.name_tables.specs.Reaching.{ends_behind, is_of, IsReach};
ghost use Rattle.name_tables.specs.declared.region.Region.{Region as Pages};
ghost use Rattle.std.specs.List.{list_any};
ghost use Rattle.std.specs.Prelude.{◌≡◌, ◌++◌, ◌∷◌, [], List as Seq};

use crate::region::Region;

/// The furthest end of some regions, the key that has it, and the furthest end of the other keys.
#[derive(Clone, Copy)]
pub struct Reach {
    pub key: (u32, u32),
    pub end: u128,
    pub other_end: u128,
}

impl Reach {
    /// The reach of no region.
    pub fn none() -> Reach
        ensures { IsReach [] result }
    {
        Reach {
            key: (0, 0),
            end: 0,
            other_end: 0,
        }
    }

    fn is_of(self, region: &Region) -> bool
        ensures { result ≡ is_of self region.now }
    {
        region.key == self.key
    }

    /// The reach with one more region.
    pub fn with(self, region: &Region) -> Reach
        ensures { (rs : Seq Pages) → IsReach rs self → IsReach (rs ++ region.now ∷ []) result }
    {
        let end = region.end();
        if self.is_of(region) {
            Reach {
                end: self.end.max(end),
                ..self
            }
        } else if self.end < end {
            Reach {
                key: region.key,
                end,
                other_end: self.end,
            }
        } else {
            Reach {
                other_end: self.other_end.max(end),
                ..self
            }
        }
    }

    /// Whether a region of another key ends behind the region's first place.
    pub fn is_behind(self, region: &Region) -> bool
        ensures { (rs : Seq Pages) → IsReach rs self → result ≡ list_any (ends_behind region.now) rs }
    {
        let end = if self.is_of(region) {
            self.other_end
        } else {
            self.end
        };
        (region.first as u128) < end
    }
}
