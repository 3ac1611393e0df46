ghost use Rattle.std.specs.Prelude.{◌≡◌, ◌-◌, length, slice_index};
ghost use Rattle.rows.specs.Items.{items};
ghost use Rattle.scales.specs.Checks.{Outcome};
ghost use Rattle.scales.specs.Grades.{GoodList, Among, Before, first_at, list_checks};
ghost use Rattle.scales.specs.Listed.{grade_laws};

use crate::refusal::{Refusal, Stop};
use crate::scale::Scale;
use rows::row::Row;

// One to sixteen different printing bytes, in the order given.
#[derive(Clone, Copy)]
pub struct Grade {
    list: Row<u8, 16>,
    ghost good: { GoodList (items list) },
}

impl Grade {
    // The scale of the bytes of a list, in its order.
    pub fn new(list: &[u8]) -> Result<Grade, Refusal>
        ensures { Outcome (list_checks list.now) (λ g. items g.list ≡ list.now) result }
    {
        if list.is_empty() || list.len() > 16 {
            return Err(Refusal::of(Stop::BadScale));
        }
        for (i, b) in list.iter().enumerate() {
            if !b.is_ascii_graphic() || list[..i].contains(b) {
                return Err(Refusal::of(Stop::BadScale));
            }
        }
        let list = Row::of(list, 0).map_err(|_| Refusal::of(Stop::BadScale))?;
        Ok(Grade { list })
    }
}

impl Scale for Grade {
    type Value = u8;

    ghost on = { λ g. Among (items g.list) };

    ghost earlier = { λ g. Before (items g.list) };

    ghost position = { λ g. first_at (items g.list) };

    ghost standing = { λ g p. slice_index (items g.list) p };

    ghost top = { λ g. length (items g.list) - 1 };

    ghost keeps = { λ g. grade_laws (items g.list) g.good };

    fn last(&self) -> u32 {
        (self.list.len() - 1) as u32
    }

    fn place(&self, v: u8) -> Result<u32, Refusal> {
        match self.list.as_slice().iter().position(|b| *b == v) {
            Some(i) => Ok(i as u32),
            None => Err(Refusal::of(Stop::OffScale)),
        }
    }

    fn value(&self, p: u32) -> Result<u8, Refusal> {
        let b = self.list.as_slice().get(p as usize);
        b.copied().ok_or(Refusal::of(Stop::OffScale))
    }
}
