// Limits that cannot be taken, and what the engineer is told.
use crate::card::Card;
use crate::limit::Limit;
use crate::placing::show_limit;
use scales::side::Side;
use scales::whole::Whole;
use scales::window::Window;
use std::io;

pub(crate) fn show(rt: &impl Print, card: &Card) -> io::Result<()> {
    println!(rt; "\nLimits that are refused:")?;
    let too_deep = Limit {
        side: Side::AtMost,
        value: 65,
    };
    show_limit(rt, &card.depth, &too_deep)?;
    show_timeouts(rt, 30, 1)
}

// A maker's two limits for the timeout, taken as a window of the whole numbers.
fn show_timeouts(rt: &impl Print, from: i32, to: i32) -> io::Result<()> {
    match Window::new(Whole, from, to) {
        Ok(_) => println!(rt; "  timeout from {from} s to {to} s: taken"),
        Err(refusal) => println!(rt; "  timeout from {from} s to {to} s: {refusal}"),
    }
}
