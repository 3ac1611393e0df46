// Grounds for a "none" before the judge: rules of both makers that no profile meets, a record that
// shows it, and the same record with one line changed.
use crate::card::Card;
use crate::demands::{DEEP_QUEUE, SHORT_TIMEOUT};
use crate::error::TourError;
use crate::grounds::{LineText, RIGHT, WRONG_RULE, WRONG_SETTING};
use crate::rules::DEPTH_OR_TIMEOUT;
use blocks::lasts::Lasts;
use blocks::rule::Rule;
use blocks::ruleset::RuleSet;
use blocks::sink::Sink;
use checker::judge::Judge;
use checker::open::open;
use record::read::read_line;
use scales::refusal::Refusal;
use std::io;

pub(crate) fn show(rt: &impl Print, card: &Card) -> Result<(), TourError> {
    println!(rt; "\nRules that contradict each other, before a judge:")?;
    println!(rt; "  rule 0: {DEPTH_OR_TIMEOUT}")?;
    println!(rt; "  rule 1: {DEEP_QUEUE}")?;
    println!(rt; "  rule 2: {SHORT_TIMEOUT}")?;
    println!(rt; "\nThe grounds, line by line:")?;
    show_judged(rt, card, &RIGHT)?;
    println!(rt; "\nThe same with another setting in line 2:")?;
    show_judged(rt, card, &WRONG_SETTING)?;
    println!(rt; "\nThe same with another rule in line 3:")?;
    show_judged(rt, card, &WRONG_RULE)
}

// The last positions of the card's settings, from which a judge is opened without a sheet.
fn lasts_of(card: &Card) -> Result<Lasts, Refusal> {
    let mut lasts = Lasts::new();
    lasts.declare(&card.depth.scale)?;
    lasts.declare(&card.timeout.scale)?;
    lasts.declare(&card.temperature.scale)?;
    lasts.declare(&card.grade.scale)?;
    Ok(lasts)
}

// Opens the rules for a judge, in the place that it will look them up in.
fn open_conflict(card: &Card, lasts: &Lasts, place: &mut RuleSet) -> Result<(), Refusal> {
    let either = DEPTH_OR_TIMEOUT.bounds(card)?;
    let deep = DEEP_QUEUE.bounds(card)?;
    let short = SHORT_TIMEOUT.bounds(card)?;
    let rules = [
        Rule { bounds: &either },
        Rule { bounds: &deep },
        Rule { bounds: &short },
    ];
    open(lasts, &rules, place)
}

// Shows what a judge on the rules says to each line, and what it finds.
fn show_judged(
    rt: &impl Print,
    card: &Card,
    record: &[&'static [u8; 10]; 4],
) -> Result<(), TourError> {
    let lasts = lasts_of(card)?;
    let mut place = RuleSet::new(lasts);
    open_conflict(card, &lasts, &mut place)?;
    let mut area = [None; 1];
    let mut judge = Judge::new(place.problem(), &mut area);
    let shown = show_lines(rt, &mut judge, record);
    // the judge is used up before anything can fail: no judge goes without a finding
    let found = judge.finding();
    shown?;
    match found {
        Ok(()) => println!(rt; "  accepted: no profile meets these rules")?,
        Err(refusal) => println!(rt; "  the finding: {refusal}")?,
    }
    Ok(())
}

// Shows what a judge says to each line, up to the first that it refuses.
fn show_lines(
    rt: &impl Print,
    judge: &mut Judge,
    record: &[&'static [u8; 10]; 4],
) -> io::Result<()> {
    for (before, bytes) in record.iter().enumerate() {
        let text = LineText(*bytes);
        if let Err(refusal) = hear(judge, *bytes, before as u64 + 1) {
            return println!(rt; "  {text}: {refusal}");
        }
        println!(rt; "  {text}: taken")?;
    }
    Ok(())
}

// The nth line to a judge. It is asked before the line is sent, since its answer to a line is only a
// number.
fn hear(judge: &mut Judge, bytes: &[u8], nth: u64) -> Result<(), Refusal> {
    let line = read_line(bytes, nth)?;
    judge.check(line)?;
    let _ = judge.take(line);
    Ok(())
}
