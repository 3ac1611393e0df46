ghost use Rattle.std.specs.Prelude.{◌≡◌, ◌+◌, ◌<◌, ◌≤◌, ◌⊎◌, min, max, if◌then◌else◌, MatchBool, MatchOption, nat_lt};

// The positions from a low to a high one, on one setting's scale.
#[derive(Clone, Copy)]
pub(crate) struct Interval {
    pub(crate) low: u32,
    pub(crate) high: u32,
    ghost ordered: { low ≤ high },
}

impl Interval {
    // The positions from one to another; None where there are none.
    pub(crate) fn new(low: u32, high: u32) -> Option<Interval>
        ensures { MatchOption result (high < low) (λ r. (r.low ≡ low) × (r.high ≡ high)) }
    {
        if high < low {
            return None;
        }
        Some(Interval { low, high })
    }

    // The positions up to a last one.
    pub(crate) fn up_to(last: u32) -> Interval
        ensures { (result.low ≡ 0) × (result.high ≡ last) }
    {
        Interval { low: 0, high: last }
    }

    // Whether all positions are among another's.
    pub(crate) fn is_inside(&self, other: &Interval) -> bool
        ensures { MatchBool result ((other.now.low ≤ self.now.low) × (self.now.high ≤ other.now.high)) ((self.now.low < other.now.low) ⊎ (other.now.high < self.now.high)) }
    {
        other.low <= self.low && self.high <= other.high
    }

    // The positions at most p; None where there are none.
    pub(crate) fn at_most(self, p: u32) -> Option<Interval>
        ensures { MatchOption result (p < self.low) (λ r. (r.low ≡ self.low) × (r.high ≡ min self.high p)) }
    {
        Interval::new(self.low, self.high.min(p))
    }

    // The positions at least p; None where there are none.
    pub(crate) fn at_least(self, p: u32) -> Option<Interval>
        ensures { MatchOption result (self.high < p) (λ r. (r.low ≡ max self.low p) × (r.high ≡ self.high)) }
    {
        Interval::new(self.low.max(p), self.high)
    }

    // The positions of both; None where they have none in common.
    pub(crate) fn meet(self, other: Interval) -> Option<Interval>
        ensures { MatchOption result (min self.high other.high < max self.low other.low) (λ r. (r.low ≡ max self.low other.low) × (r.high ≡ min self.high other.high)) }
    {
        Interval::new(self.low.max(other.low), self.high.min(other.high))
    }

    // The positions of either, where the two overlap or adjoin; None where a position lies between.
    pub(crate) fn join(self, other: Interval) -> Option<Interval>
        ensures { MatchOption result (min self.high other.high + 1 < max self.low other.low) (λ r. (max self.low other.low ≤ min self.high other.high + 1) × (r.low ≡ min self.low other.low) × (r.high ≡ max self.high other.high)) }
    {
        let low = self.low.max(other.low);
        let high = self.high.min(other.high);
        if low > high.saturating_add(1) {
            return None;
        }
        Some(Interval {
            low: self.low.min(other.low),
            high: self.high.max(other.high),
        })
    }

    // How many sides are bounds: the low side above 0, the high side below the last.
    pub(crate) fn sides(&self, last: u32) -> usize
        ensures { result ≡ (if nat_lt 0 self.now.low then 1 else 0) + (if nat_lt self.now.high last then 1 else 0) }
    {
        usize::from(self.low > 0) + usize::from(self.high < last)
    }
}
