// The makers' rules, and those of two limits.
use crate::card::{Card, Quantity};
use crate::limit::Limit;
use blocks::bound::Bound;
use scales::refusal::Refusal;
use scales::side::Side;
use std::fmt;

// A limit for one of the card's settings.
#[derive(Clone, Copy)]
pub(crate) enum Asked {
    Depth(Limit<i32>),
    Timeout(Limit<i32>),
    Temperature(Limit<f32>),
    Grade(Limit<u8>),
}

impl Asked {
    // The limit as a bound on the card's setting.
    pub(crate) fn bound(self, card: &Card) -> Result<Bound, Refusal> {
        match self {
            Asked::Depth(limit) => card.depth.bound(limit),
            Asked::Timeout(limit) => card.timeout.bound(limit),
            Asked::Temperature(limit) => card.temperature.bound(limit),
            Asked::Grade(limit) => card.grade.bound(limit),
        }
    }
}

impl fmt::Display for Asked {
    fn fmt<W: fmt::Write>(&self, f: &mut fmt::Formatter<W>) -> fmt::Result {
        match *self {
            Asked::Depth(limit) => write!(f, "{}", limit.on(Quantity::QueueDepth)),
            Asked::Timeout(limit) => write!(f, "{}", limit.on(Quantity::Timeout)),
            Asked::Temperature(limit) => write!(f, "{}", limit.on(Quantity::Temperature)),
            Asked::Grade(limit) => write!(f, "{}", limit.on(Quantity::Grade)),
        }
    }
}

// A maker's rule: limits of which one suffices.
#[derive(Clone, Copy)]
pub(crate) struct MakersRule<const N: usize> {
    pub(crate) maker: &'static str,
    pub(crate) limits: [Asked; N],
}

impl<const N: usize> MakersRule<N> {
    // The rule as bounds on the card's settings.
    pub(crate) fn bounds(&self, card: &Card) -> Result<[Bound; N], Refusal> {
        let mut bounds = [Bound::AtMost(0, 0); N];
        for (bound, limit) in bounds.iter_mut().zip(&self.limits) {
            *bound = limit.bound(card)?;
        }
        Ok(bounds)
    }
}

impl<const N: usize> fmt::Display for MakersRule<N> {
    fn fmt<W: fmt::Write>(&self, f: &mut fmt::Formatter<W>) -> fmt::Result {
        f.write_str(self.maker)?;
        for (i, limit) in self.limits.iter().enumerate() {
            f.write_str(if i == 0 { ", " } else { " or " })?;
            write!(f, "{limit}")?;
        }
        Ok(())
    }
}

pub(crate) const DEPTH_OR_TIMEOUT: MakersRule<2> = MakersRule {
    maker: "Alder",
    limits: [
        Asked::Depth(Limit {
            side: Side::AtMost,
            value: 16,
        }),
        Asked::Timeout(Limit {
            side: Side::AtLeast,
            value: 8,
        }),
    ],
};

pub(crate) const HEAT_OR_TIMEOUT: MakersRule<2> = MakersRule {
    maker: "Alder",
    limits: [
        Asked::Temperature(Limit {
            side: Side::AtMost,
            value: 70.0,
        }),
        Asked::Timeout(Limit {
            side: Side::AtMost,
            value: 20,
        }),
    ],
};

pub(crate) const DEPTH_OR_GRADE: MakersRule<2> = MakersRule {
    maker: "Birch",
    limits: [
        Asked::Depth(Limit {
            side: Side::AtMost,
            value: 8,
        }),
        Asked::Grade(Limit {
            side: Side::AtLeast,
            value: b'H',
        }),
    ],
};

// Every queue depth is one or the other.
pub(crate) const ANY_DEPTH: MakersRule<2> = MakersRule {
    maker: "Birch",
    limits: [
        Asked::Depth(Limit {
            side: Side::AtMost,
            value: 40,
        }),
        Asked::Depth(Limit {
            side: Side::AtLeast,
            value: 32,
        }),
    ],
};
