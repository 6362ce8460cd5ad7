// The limits of a memory or table type: a minimum and perhaps a maximum.
#![tactic(auto, using(crate::proofs::Picks::cases), unfolding(crate::specs::Limits::admits_of, crate::specs::Limits::match_limits, crate::specs::Limits::valid_maximum, crate::specs::Limits::valid_limits))]

ghost use Rattle.std.specs.Prelude.{◌≡◌};
ghost use Rattle.types.specs.Limits.{valid_limits, valid_maximum, match_limits, admits_of, from_minimum};
ghost use Rattle.types.specs.Wide.{whole};

use super::wide::Wide;

#[derive(Clone, Copy, PartialEq, Eq)]
pub struct Limits {
    pub minimum: u64,
    // No Option holds the maximum: a row in place (`row::operate`) keeps the word of one that is not used.
    pub bounded: bool,
    pub maximum: u64,
}

impl Limits {
    // Whether minimum and maximum are in order and at most the bound.
    pub fn valid_within(self, bound: Wide) -> bool
        ensures { result ≡ valid_limits self (whole bound) }
    {
        bound.covers(self.minimum) && (!self.bounded || self.maximum_within(bound))
    }

    // Whether the maximum is at most the bound and not below the minimum.
    fn maximum_within(self, bound: Wide) -> bool
        ensures { result ≡ valid_maximum self (whole bound) }
    {
        bound.covers(self.maximum) && self.minimum <= self.maximum
    }

    // Whether what has these limits may stand where `other` is wanted.
    pub fn matches(self, other: Limits) -> bool
        ensures { result ≡ match_limits self other }
    {
        other.minimum <= self.minimum
            && (!other.bounded || (self.bounded && self.maximum <= other.maximum))
    }

    // Whether a size is at most the maximum, if there is one.
    pub fn admits(self, size: u64) -> bool
        ensures { result ≡ admits_of self size }
    {
        !self.bounded || size <= self.maximum
    }

    // The same limits with another minimum.
    pub fn from(self, minimum: u64) -> Limits
        ensures { result ≡ from_minimum self minimum }
    {
        Limits { minimum, ..self }
    }
}
