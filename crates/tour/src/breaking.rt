// The profile held against every rule that stands: it breaks those whose block it is in.
use crate::card::Card;
use crate::choice::{CANDIDATE, Choice};
use crate::desk::Desk;
use crate::error::TourError;
use blocks::block::Block;
use scales::refusal::Refusal;

pub(crate) fn show(rt: &impl Print, desk: &Desk) -> Result<(), TourError> {
    println!(rt; "\nThe profile against the rules:")?;
    for number in 0..desk.sheet.rules() {
        if let Some(block) = desk.sheet.block(number) {
            if is_in(&desk.card, &CANDIDATE, &block)? {
                println!(rt; "  breaks rule {number}")?;
            } else {
                println!(rt; "  meets rule {number}")?;
            }
        }
    }
    Ok(())
}

// Whether the profile of a choice is in a block.
fn is_in(card: &Card, choice: &Choice, block: &Block) -> Result<bool, Refusal> {
    let depth = card.depth.is_between(block, choice.depth)?;
    let timeout = card.timeout.is_between(block, choice.timeout)?;
    let temperature = card.temperature.is_between(block, choice.temperature)?;
    let grade = card.grade.is_between(block, choice.grade)?;
    Ok(depth && timeout && temperature && grade)
}
