// The makers' rules posted one by one, each with its block in values, and rules that are refused.
use crate::card::{Card, Setting};
use crate::desk::Desk;
use crate::error::TourError;
use crate::rules::{ANY_DEPTH, DEPTH_OR_GRADE, DEPTH_OR_TIMEOUT, HEAT_OR_TIMEOUT, MakersRule};
use crate::words::Show;
use blocks::block::Block;
use blocks::bound::Bound;
use scales::scale::Scale;

pub(crate) fn show(rt: &impl Print, desk: &mut Desk) -> Result<(), TourError> {
    println!(rt; "\nThe makers' rules, each with the block of the profiles that break it:")?;
    post(rt, desk, &DEPTH_OR_TIMEOUT)?;
    post(rt, desk, &HEAT_OR_TIMEOUT)?;
    post(rt, desk, &DEPTH_OR_GRADE)?;
    println!(rt; "\nRules that are refused:")?;
    post(rt, desk, &ANY_DEPTH)?;
    post_on_fifth(rt, desk)
}

// Posts a rule, and shows the block that stands for it or why it is refused.
fn post(rt: &impl Print, desk: &mut Desk, rule: &MakersRule<2>) -> Result<(), TourError> {
    let bounds = rule.bounds(&desk.card)?;
    match desk.post(&bounds) {
        Ok(number) => {
            println!(rt; "  rule {number}: {rule}")?;
            if let Some(block) = desk.sheet.block(number) {
                show_block(rt, &desk.card, &block)?;
            }
        }
        Err(refusal) => println!(rt; "  {rule}: {refusal}")?,
    }
    Ok(())
}

// A rule whose second bound is on a setting that the card does not have.
fn post_on_fifth(rt: &impl Print, desk: &mut Desk) -> Result<(), TourError> {
    let [asked, _] = DEPTH_OR_TIMEOUT.limits;
    let bounds = [asked.bound(&desk.card)?, Bound::AtMost(4, 0)];
    if let Err(refusal) = desk.post(&bounds) {
        println!(rt; "  Birch, {asked} or setting 4 at most position 0: {refusal}")?;
    }
    Ok(())
}

fn show_block(rt: &impl Print, card: &Card, block: &Block) -> Result<(), TourError> {
    show_range(rt, &card.depth, block)?;
    show_range(rt, &card.timeout, block)?;
    show_range(rt, &card.temperature, block)?;
    show_range(rt, &card.grade, block)
}

// The ends of a block on one setting, read back through its scale.
fn show_range<V: Show, S: Scale<Value = V>>(
    rt: &impl Print,
    setting: &Setting<S>,
    block: &Block,
) -> Result<(), TourError> {
    let quantity = setting.quantity;
    let from = setting.amount_at(block.low(setting.number))?;
    let to = setting.amount_at(block.high(setting.number))?;
    println!(rt; "    {quantity} from {from} to {to}")?;
    Ok(())
}
