//! Subnets that interfaces claim, and whether two of them may overlap.
ghost use Rattle.std.specs.Prelude.{◌↔◌, ◌<◌, ◌≤◌, IsTrue, length};

use arc_base::Prefix;

/// A subnet that the interface at a place claims, and the place of the other end of its link, or
/// its own place again.
#[derive(Clone, Copy, Debug)]
pub struct Claim {
    pub subnet: Prefix,
    pub place: u32,
    pub partner: u32,
}

impl Claim {
    ghost use Rattle.net_checks.specs.Claims.{AreLinkedOrApart};
    ghost use Rattle.net_checks.specs.Sorting.{IsPackedAt, ArePacked};

    /// Whether the two claims are those of the ends of one link or have no address in common.
    pub fn is_linked_or_apart(&self, other: &Claim) -> bool
        ensures { IsTrue result ↔ AreLinkedOrApart self.now other.now }
    {
        self.partner == other.place || self.subnet.disjoint(&other.subnet)
    }

    /// Whether the claim at a place is linked to or apart from the two before it.
    fn is_packed_at(claims: &[Claim], place: usize) -> bool
        requires some { 1 ≤ place }
        requires within { place < length claims.now }
        ensures { IsTrue result ↔ IsPackedAt claims.now place }
    {
        let claim = claims[place];
        if !claims[place - 1].is_linked_or_apart(&claim) {
            return false;
        }
        if place < 2 {
            return true;
        }
        claims[place - 2].is_linked_or_apart(&claim)
    }

    /// Whether each claim is linked to or apart from the two after it.
    pub fn neighbours_are_linked_or_apart(claims: &[Claim]) -> bool
        ensures { IsTrue result ↔ ArePacked claims.now }
    {
        for place in 1..claims.len() {
            if !Claim::is_packed_at(claims, place) {
                return false;
            }
        }
        true
    }
}
