use crate::state::State;
use blocks::problem::Problem;
use blocks::slot::Slot;

mod ask;
pub mod check;
pub mod finding;
mod hear;
mod look;
pub mod opening;
pub mod take;

// A judge over a problem, with a work area of its own.
//
// It is not Drop: only its finding uses it up.
pub struct Judge<'a> {
    problem: Problem<'a>,
    area: &'a mut [Slot],
    state: State,
    // the number of the next line, from 1: the lines taken and one, stopping at 99,999
    line: u32,
}
