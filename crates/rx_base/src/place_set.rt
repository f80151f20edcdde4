// Sets of places.
ghost use Rattle.std.specs.Prelude.{◌≡◌, ◌<◌, ◌↔◌, ◌||◌, ◌==◌, ℕ, [], Contains, IsTrue};
ghost use Rattle.rx_base.specs.Sets.{has_bit, members, MembersMakeTheSet};

use crate::PlaceId;

/// A set of places: bit p stands for place p.
#[derive(Clone, Copy, Debug, PartialEq, Eq)]
pub struct PlaceSet(pub u16);

impl PlaceSet {
    /// The set of no place.
    pub fn empty() -> PlaceSet
        ensures { members result ≡ [] }
    {
        PlaceSet(0)
    }

    /// The set with one place more.
    pub fn with(self, p: PlaceId) -> PlaceSet
        requires { p.0 < 16 }
        ensures { (q : ℕ) → q < 16 → has_bit result.0 q ≡ (has_bit self.0 q || (p.0 == q)) }
    {
        PlaceSet(self.0 | (1 << p.0))
    }

    /// Whether the place is in the set.
    pub fn contains(self, p: PlaceId) -> bool
        requires { p.0 < 16 }
        ensures bit { result ≡ has_bit self.0 p.0 }
        ensures member { IsTrue result ↔ Contains (members self) p.0 }
    {
        (self.0 >> p.0) % 2 == 1
    }
}

/// A law of sets: two with the same members are one. It does nothing when it runs.
pub fn members_make_the_set()
    ensures { MembersMakeTheSet }
{}
