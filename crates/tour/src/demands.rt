// The makers' demands: rules of one limit.
use crate::limit::Limit;
use crate::rules::{Asked, MakersRule};
use scales::side::Side;

pub(crate) const DEEP_QUEUE: MakersRule<1> = MakersRule {
    maker: "Birch",
    limits: [Asked::Depth(Limit {
        side: Side::AtLeast,
        value: 17,
    })],
};

pub(crate) const SHORT_TIMEOUT: MakersRule<1> = MakersRule {
    maker: "Birch",
    limits: [Asked::Timeout(Limit {
        side: Side::AtMost,
        value: 5,
    })],
};

pub(crate) const NOT_TOO_COLD: MakersRule<1> = MakersRule {
    maker: "Birch",
    limits: [Asked::Temperature(Limit {
        side: Side::AtLeast,
        value: -25.5,
    })],
};

pub(crate) const LONG_QUEUE: MakersRule<1> = MakersRule {
    maker: "Alder",
    limits: [Asked::Depth(Limit {
        side: Side::AtLeast,
        value: 24,
    })],
};

pub(crate) const LOW_GRADE: MakersRule<1> = MakersRule {
    maker: "Alder",
    limits: [Asked::Grade(Limit {
        side: Side::AtMost,
        value: b'M',
    })],
};
