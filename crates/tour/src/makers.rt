use crate::limit::Limit;
use scales::side::Side;

// A maker of drives, with its limit for each setting of the card.
#[derive(Clone, Copy)]
pub(crate) struct Maker {
    pub(crate) name: &'static str,
    pub(crate) depth: Limit<i32>,
    pub(crate) timeout: Limit<i32>,
    pub(crate) temperature: Limit<f32>,
    pub(crate) grade: Limit<u8>,
}

pub(crate) const ALDER: Maker = Maker {
    name: "Alder",
    depth: Limit {
        side: Side::AtMost,
        value: 32,
    },
    timeout: Limit {
        side: Side::AtLeast,
        value: 8,
    },
    temperature: Limit {
        side: Side::AtMost,
        value: 70.0,
    },
    grade: Limit {
        side: Side::AtLeast,
        value: b'M',
    },
};

pub(crate) const BIRCH: Maker = Maker {
    name: "Birch",
    depth: Limit {
        side: Side::AtLeast,
        value: 16,
    },
    timeout: Limit {
        side: Side::AtMost,
        value: 20,
    },
    temperature: Limit {
        side: Side::AtLeast,
        value: -25.5,
    },
    grade: Limit {
        side: Side::AtMost,
        value: b'M',
    },
};
