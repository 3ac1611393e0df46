// The search over the makers' rules: the profile that it finds, then one rule more, on which it
// finds none and writes a record of its grounds. The judge reads it whole, and then tampered with.
use crate::card::{Card, Setting};
use crate::demands::{LONG_QUEUE, LOW_GRADE, NOT_TOO_COLD};
use crate::desk::Desk;
use crate::error::TourError;
use crate::reading::{show_grounds, show_reading};
use crate::rules::MakersRule;
use crate::words::Show;
use blocks::block::Block;
use blocks::slot::Slot;
use record::sink::Record;
use scales::scale::Scale;
use search::verdict::Verdict;

pub(crate) fn show(rt: &impl Print, desk: &mut Desk) -> Result<(), TourError> {
    println!(rt; "\nTwo rules more, behind the makers' three:")?;
    post(rt, desk, &NOT_TOO_COLD)?;
    post(rt, desk, &LONG_QUEUE)?;
    // one area serves the searches and the judge: each starts cold, whatever was left in it
    let mut area = [None; 193];
    let mut buffer = [b' '; 100];
    show_search(rt, desk, &mut area, &mut buffer)?;
    println!(rt; "\nOne rule more:")?;
    post(rt, desk, &LOW_GRADE)?;
    show_search(rt, desk, &mut area, &mut buffer)?;
    // the grounds are four lines of ten bytes each
    println!(rt; "\nThe same without the last line:")?;
    show_reading(rt, &desk.sheet, &buffer[0..30], &mut area)?;
    println!(rt; "\nThe same with setting 1 in line 2:")?;
    buffer[18] = b'1';
    show_reading(rt, &desk.sheet, &buffer[0..40], &mut area)?;
    Ok(())
}

fn post(rt: &impl Print, desk: &mut Desk, demand: &MakersRule<1>) -> Result<(), TourError> {
    let bounds = demand.bounds(&desk.card)?;
    let number = desk.post(&bounds)?;
    println!(rt; "  rule {number}: {demand}")?;
    Ok(())
}

// Searches, and shows the profile found or the grounds for there being none.
fn show_search(
    rt: &impl Print,
    desk: &Desk,
    area: &mut [Slot],
    buffer: &mut [u8],
) -> Result<(), TourError> {
    let mut record = Record::new(buffer);
    let verdict = desk.search(area, &mut record)?;
    show_verdict(rt, desk, &verdict, record.written(), area)
}

fn show_verdict(
    rt: &impl Print,
    desk: &Desk,
    verdict: &Verdict,
    written: &[u8],
    area: &mut [Slot],
) -> Result<(), TourError> {
    match &verdict.found {
        Some(region) => {
            println!(rt; "\nThe search finds a profile that meets every rule:")?;
            show_profile(rt, &desk.card, region)
        }
        None => {
            show_grounds(rt, verdict.lines, written)?;
            show_reading(rt, &desk.sheet, written, area)?;
            Ok(())
        }
    }
}

// The profile at the low ends of a region. Any other of the region would do as well.
fn show_profile(rt: &impl Print, card: &Card, region: &Block) -> Result<(), TourError> {
    show_low(rt, &card.depth, region)?;
    show_low(rt, &card.timeout, region)?;
    show_low(rt, &card.temperature, region)?;
    show_low(rt, &card.grade, region)
}

fn show_low<V: Show, S: Scale<Value = V>>(
    rt: &impl Print,
    setting: &Setting<S>,
    region: &Block,
) -> Result<(), TourError> {
    let quantity = setting.quantity;
    let amount = setting.amount_at(region.low(setting.number))?;
    println!(rt; "  {quantity} {amount}")?;
    Ok(())
}
