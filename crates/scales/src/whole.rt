ghost use Rattle.scales.specs.Wholes.{OnWhole, EarlierWhole, place_whole, value_whole};
ghost use Rattle.scales.specs.WholeLaws.{whole_laws};

use crate::refusal::{Refusal, Stop};
use crate::scale::Scale;

// The whole numbers from -1,000,000,000 to 1,000,000,000.
#[derive(Clone, Copy)]
pub struct Whole;

// The position of 0, which is also the distance from a number to its position.
const ZERO: i64 = 1_000_000_000;

impl Scale for Whole {
    type Value = i32;

    ghost on = { λ _. OnWhole };

    ghost earlier = { λ _. EarlierWhole };

    ghost position = { λ _. place_whole };

    ghost standing = { λ _. value_whole };

    ghost top = { λ _. 2000000000 };

    ghost keeps = { λ _. whole_laws };

    fn last(&self) -> u32 {
        2_000_000_000
    }

    fn place(&self, v: i32) -> Result<u32, Refusal> {
        if v < -1_000_000_000 || v > 1_000_000_000 {
            return Err(Refusal::of(Stop::OffScale));
        }
        Ok((i64::from(v) + ZERO) as u32)
    }

    fn value(&self, p: u32) -> Result<i32, Refusal> {
        if p > 2_000_000_000 {
            return Err(Refusal::of(Stop::OffScale));
        }
        Ok((i64::from(p) - ZERO) as i32)
    }
}
