// One profile, held against the limits of both makers.
use crate::card::{Card, Setting};
use crate::choice::{CANDIDATE, Choice};
use crate::error::TourError;
use crate::limit::Limit;
use crate::makers::{ALDER, BIRCH, Maker};
use crate::words::Show;
use scales::scale::Scale;

pub(crate) fn show(rt: &impl Print, card: &Card) -> Result<(), TourError> {
    let choice = CANDIDATE;
    println!(rt; "\nA profile to try:")?;
    show_value(rt, &card.depth, choice.depth)?;
    show_value(rt, &card.timeout, choice.timeout)?;
    show_value(rt, &card.temperature, choice.temperature)?;
    show_value(rt, &card.grade, choice.grade)?;
    println!(rt; "\nThe profile against the limits:")?;
    hold(rt, card, &choice, &ALDER)?;
    hold(rt, card, &choice, &BIRCH)
}

fn show_value<V: Show, S: Scale<Value = V>>(
    rt: &impl Print,
    setting: &Setting<S>,
    value: V,
) -> Result<(), TourError> {
    let quantity = setting.quantity;
    let amount = setting.amount(value);
    let position = setting.scale.place(value)?;
    println!(rt; "  {quantity} {amount}: position {position}")?;
    Ok(())
}

// Names the maker's limits that the choice misses.
fn hold(rt: &impl Print, card: &Card, choice: &Choice, maker: &Maker) -> Result<(), TourError> {
    let name = maker.name;
    let depth = hold_one(rt, name, &card.depth, &maker.depth, choice.depth)?;
    let timeout = hold_one(rt, name, &card.timeout, &maker.timeout, choice.timeout)?;
    let temperature = hold_one(
        rt,
        name,
        &card.temperature,
        &maker.temperature,
        choice.temperature,
    )?;
    let grade = hold_one(rt, name, &card.grade, &maker.grade, choice.grade)?;
    if depth && timeout && temperature && grade {
        println!(rt; "  {name}: misses nothing")?;
    }
    Ok(())
}

// Whether the value meets the limit. A limit that it misses is named.
fn hold_one<V: Show, S: Scale<Value = V>>(
    rt: &impl Print,
    maker: &str,
    setting: &Setting<S>,
    limit: &Limit<V>,
    value: V,
) -> Result<bool, TourError> {
    let met = limit.is_met_by(&setting.scale, value)?;
    if !met {
        let words = limit.on(setting.quantity);
        println!(rt; "  {maker}: misses {words}")?;
    }
    Ok(met)
}
