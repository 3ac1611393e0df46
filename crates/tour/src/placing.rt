// The card's settings on their scales, and the makers' limits on these.
use crate::card::{Card, Setting};
use crate::error::TourError;
use crate::limit::Limit;
use crate::makers::{ALDER, BIRCH, Maker};
use crate::words::Show;
use scales::scale::Scale;
use std::io;

pub(crate) fn show(rt: &impl Print, card: &Card) -> Result<(), TourError> {
    println!(rt; "The card's settings, with the positions of their values:")?;
    show_scale(rt, &card.depth)?;
    show_scale(rt, &card.timeout)?;
    show_scale(rt, &card.temperature)?;
    show_scale(rt, &card.grade)?;
    show_maker(rt, card, &ALDER)?;
    show_maker(rt, card, &BIRCH)?;
    Ok(())
}

fn show_scale<V: Show, S: Scale<Value = V>>(
    rt: &impl Print,
    setting: &Setting<S>,
) -> Result<(), TourError> {
    let quantity = setting.quantity;
    let last = setting.scale.last();
    let from = setting.amount_at(0)?;
    let to = setting.amount_at(last)?;
    println!(rt; "  {quantity} from {from} to {to}: positions 0 to {last}")?;
    Ok(())
}

fn show_maker(rt: &impl Print, card: &Card, maker: &Maker) -> io::Result<()> {
    let name = maker.name;
    println!(rt; "\nLimits of {name}, with the value read back from the position:")?;
    show_limit(rt, &card.depth, &maker.depth)?;
    show_limit(rt, &card.timeout, &maker.timeout)?;
    show_limit(rt, &card.temperature, &maker.temperature)?;
    show_limit(rt, &card.grade, &maker.grade)
}

// One limit on its scale, or why it has no place there.
pub(crate) fn show_limit<V: Show, S: Scale<Value = V>>(
    rt: &impl Print,
    setting: &Setting<S>,
    limit: &Limit<V>,
) -> io::Result<()> {
    let words = limit.on(setting.quantity);
    match limit.place_on(&setting.scale) {
        Ok(placed) => {
            let position = placed.position;
            let back = setting.amount(placed.value);
            println!(rt; "  {words}: position {position}, read back {back}")
        }
        Err(refusal) => println!(rt; "  {words}: {refusal}"),
    }
}
