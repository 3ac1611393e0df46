ghost use Rattle.scales.specs.Readings.{OnReading, EarlierReading, place_reading, value_reading};
ghost use Rattle.scales.specs.Floats.{reading_laws};

use crate::refusal::{Refusal, Stop};
use crate::scale::Scale;

// The positions of -0 and +0, and the last.
const MINUS_ZERO: u32 = 2_139_095_040;

const PLUS_ZERO: u32 = 2_139_095_041;

const LAST: u32 = 4_278_190_081;

// The sign bit: set for each float below 0, and for -0.
const SIGN: u32 = 0x8000_0000;

// The 32-bit floats that are numbers, infinities included, -0 directly before +0.
#[derive(Clone, Copy)]
pub struct Reading;

impl Scale for Reading {
    type Value = f32;

    ghost on = { λ _. OnReading };

    ghost earlier = { λ _. EarlierReading };

    ghost position = { λ _. place_reading };

    ghost standing = { λ _. value_reading };

    ghost top = { λ _. 4278190081 };

    ghost keeps = { λ s. reading_laws };

    fn last(&self) -> u32 {
        LAST
    }

    fn place(&self, v: f32) -> Result<u32, Refusal> {
        if v.is_nan() {
            return Err(Refusal::of(Stop::OffScale));
        }
        let b = v.to_bits();
        if b < SIGN {
            Ok(PLUS_ZERO + b)
        } else {
            Ok(MINUS_ZERO - (b - SIGN))
        }
    }

    fn value(&self, p: u32) -> Result<f32, Refusal> {
        if p > LAST {
            return Err(Refusal::of(Stop::OffScale));
        }
        if p < PLUS_ZERO {
            Ok(f32::from_bits(SIGN + (MINUS_ZERO - p)))
        } else {
            Ok(f32::from_bits(p - PLUS_ZERO))
        }
    }
}
