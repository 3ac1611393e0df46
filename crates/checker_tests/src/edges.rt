// The edges of what is asked of a line, of opening and of the finding.
use crate::worked::{four_rules, grounds, k, r, t, two_settings};
use blocks::bound::Bound;
use blocks::line::Line;
use blocks::line::numbers::{BlockNumber, SettingNumber};
use blocks::rule::Rule;
use blocks::ruleset::RuleSet;
use blocks::sink::Sink;
use blocks::slot::Slot;
use checker::judge::Judge;
use checker::open::open;
use scale_edges::refused;
use std::process::Abort;
use std::test::Fail;

// Each line is answered by this number, 0 where it is taken, before and when it is sent. The tables hold
// the numbers that users are told.
fn answered(rt: &impl Abort, judge: &mut Judge, lines: &[(Line, u8)]) -> Result<(), Fail> {
    for (line, number) in lines {
        let asked = refused(judge.check(*line)).map_or(0, |(number, _)| number);
        assert_eq!(rt; asked, *number, "{line:?}");
        let sent = judge.take(*line).err().unwrap_or(0);
        assert_eq!(rt; sent, u32::from(*number), "{line:?}");
    }
    Ok(())
}

// The four rules before a judge with this area, and the refusal that it finds once the lines are
// answered so.
fn found(
    rt: &impl Abort,
    area: &mut [Slot],
    lines: &[(Line, u8)],
) -> Result<Option<(u8, u32)>, Fail> {
    let lasts = two_settings()?;
    let mut place = RuleSet::new(lasts);
    open(&lasts, &four_rules(), &mut place)?;
    let mut judge = Judge::new(place.problem(), area);
    let seen = answered(rt, &mut judge, lines);
    let found = judge.finding();
    seen?;
    Ok(refused(found))
}

// The low ends of x and y in a slot.
fn lows(slot: Slot) -> Option<(u32, u32)> {
    slot.map(|block| (block.low(0), block.low(1)))
}

#[test]
fn blocks_that_are_not_there(rt: HostRuntime) -> Result<(), Fail> {
    let mut area = [None; 2];
    let first = [
        (t(4), 9),
        (t(47), 9),
        (t(48), 9),
        (t(99), 9),
        (t(100), 9),
        (t(102), 9),
        (t(99_999), 9),
        (t(3), 0),
    ];
    assert_eq!(rt; found(&rt, &mut area, &first)?, Some((26, 2)));
    let then = [
        (t(3), 0),
        (r(48, 0), 9),
        (r(100, 0), 9),
        (k(99), 9),
        (k(102), 9),
        (k(0), 9),
        (k(101), 0),
        (t(100), 9),
        (t(101), 0),
    ];
    assert_eq!(rt; found(&rt, &mut area, &then)?, Some((26, 4)));
    Ok(())
}

#[test]
fn an_area_without_slots_keeps_nothing(rt: HostRuntime) -> Result<(), Fail> {
    let mut area = [];
    let lines = [(t(3), 0), (r(2, 1), 0), (k(100), 9), (r(100, 0), 9)];
    assert_eq!(rt; found(&rt, &mut area, &lines)?, Some((26, 3)));
    Ok(())
}

#[test]
fn settings_that_are_not_declared(rt: HostRuntime) -> Result<(), Fail> {
    let last = SettingNumber::stopping(999);
    let mut area = [None; 1];
    let lines = [
        (t(3), 0),
        (r(2, 2), 3),
        (r(2, 12), 3),
        (r(2, 255), 3),
        (Line::Resolve(BlockNumber::stopping(2), last), 3),
        (Line::Resolve(BlockNumber::stopping(4), last), 9),
        (r(2, 0), 10),
        (r(2, 1), 0),
    ];
    assert_eq!(rt; found(&rt, &mut area, &lines)?, Some((26, 3)));
    Ok(())
}

#[test]
fn a_slot_may_be_filled_again(rt: HostRuntime) -> Result<(), Fail> {
    let mut area = [None; 1];
    let lines = [(t(3), 0), (k(100), 0), (t(2), 0), (k(100), 0)];
    assert_eq!(rt; found(&rt, &mut area, &lines)?, Some((26, 5)));
    // the block of rule 2 is x at 0 with y at 1
    assert_eq!(rt; lows(area[0]), Some((0, 1)));
    Ok(())
}

#[test]
fn each_stage_takes_its_letters_and_no_other(rt: HostRuntime) -> Result<(), Fail> {
    let mut area = [None; 1];
    let idle = [(r(0, 0), 23), (k(100), 23), (Line::End, 23), (t(0), 0)];
    assert_eq!(rt; found(&rt, &mut area, &idle)?, Some((26, 2)));
    let working = [(t(0), 0), (t(0), 23), (Line::End, 11), (k(100), 0)];
    assert_eq!(rt; found(&rt, &mut area, &working)?, Some((26, 3)));
    let [a, b, c, d, e, f, g] = grounds();
    let ended = [
        (a, 0),
        (b, 0),
        (c, 0),
        (d, 0),
        (e, 0),
        (f, 0),
        (g, 0),
        (t(0), 23),
        (r(0, 0), 23),
        (k(100), 23),
        (Line::End, 23),
    ];
    assert_eq!(rt; found(&rt, &mut area, &ended)?, None);
    Ok(())
}

#[test]
fn making_a_judge_empties_its_area(rt: HostRuntime) -> Result<(), Fail> {
    let mut area = [None; 1];
    assert_eq!(rt;
        found(&rt, &mut area, &[(t(3), 0), (k(100), 0)])?,
        Some((26, 3))
    );
    assert_eq!(rt; found(&rt, &mut area, &[(t(100), 9)])?, Some((26, 1)));
    Ok(())
}

#[test]
fn a_refused_opening_leaves_the_place(rt: HostRuntime) -> Result<(), Fail> {
    let lasts = two_settings()?;
    let [first, second, ..] = four_rules();
    let always = Rule {
        bounds: &[Bound::AtMost(0, 0), Bound::AtLeast(0, 1)],
    };
    let mut place = RuleSet::new(lasts);
    open(&lasts, &[first], &mut place)?;
    assert_eq!(rt;
        refused(open(&lasts, &[second, always], &mut place)),
        Some((5, 0))
    );
    assert_eq!(rt; place.count(), 1);
    // it still holds the first rule, which only x at 1 with y at 1 breaks
    let mut area = [None; 1];
    let mut judge = Judge::new(place.problem(), &mut area);
    let seen = answered(&rt, &mut judge, &[(t(0), 0), (k(100), 0), (t(1), 9)]);
    let found = judge.finding();
    seen?;
    assert_eq!(rt; refused(found), Some((26, 3)));
    assert_eq!(rt; lows(area[0]), Some((1, 1)));
    Ok(())
}
