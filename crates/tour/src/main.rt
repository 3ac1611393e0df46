// A tour of the product: one buyer's task, step by step, with what each step answered.
//
// A card at a field station takes drives of two makers, and each maker sets limits. The tour
// declares the card's settings on a draft, places the limits on their scales, shows limits that are
// refused, and holds one profile against both makers. Then it closes the draft and shows the settings
// as the sheet tells them. It posts the makers' rules on the sheet, shows the block of each and rules
// that are refused, and names the rules that the profile breaks. A judge hears the grounds for rules
// that no profile meets, and the same grounds with one line changed. Last, the sheet is searched: a
// profile is found, and after one rule more none. The sheet's judge accepts the record of the grounds,
// and refuses it with a line left out and with a byte changed.
#![tactic(auto)]

use card::Card;
use desk::Desk;
use error::TourError;
use sheet::draft::Draft;

mod admitting;
mod breaking;
mod card;
mod choice;
mod declaring;
mod demands;
mod desk;
mod error;
mod grounds;
mod holding;
mod judging;
mod limit;
mod makers;
mod placing;
mod reading;
mod refusing;
mod rules;
mod searching;
mod words;

fn main(rt: HostRuntime) -> Result<(), TourError> {
    println!(rt; "A storage card takes drives of two makers, Alder and Birch.\n")?;
    let mut draft = Draft::new();
    let card = Card::new(&mut draft)?;
    placing::show(&rt, &card)?;
    refusing::show(&rt, &card)?;
    holding::show(&rt, &card)?;
    let mut desk = Desk::new(card, draft);
    declaring::show(&rt, &desk)?;
    admitting::show(&rt, &mut desk)?;
    breaking::show(&rt, &desk)?;
    judging::show(&rt, &desk.card)?;
    searching::show(&rt, &mut desk)
}
