// Worked grounds: accepted whole, and refused with any one line left out.
use crate::judged;
use crate::worked::{four_rules, grounds, two_settings};
use blocks::line::Line;
use scale_edges::refused;
use scales::refusal::Refusal;
use std::test::Fail;

// The four rules before a judge with one slot.
fn judged_on_four(lines: &[Line]) -> Result<(), Refusal> {
    let mut area = [None; 1];
    judged(&two_settings()?, &four_rules(), lines, &mut area)
}

#[test]
fn the_grounds_are_accepted() -> Result<(), Fail> {
    judged_on_four(&grounds())?;
    Ok(())
}

// The grounds with one line left out.
fn grounds_without(out: usize) -> [Line; 6] {
    let lines = grounds();
    let others = lines.iter().enumerate().filter(|(at, _)| *at != out);
    let mut rest = [Line::End; 6];
    for (kept, (_, line)) in rest.iter_mut().zip(others) {
        *kept = *line;
    }
    rest
}

#[test]
fn with_any_one_line_left_out_they_are_refused(rt: HostRuntime) -> Result<(), Fail> {
    // the number of the stop, and the line
    let stops = [
        (23, 1),
        (11, 6),
        (23, 3),
        (23, 4),
        (11, 6),
        (11, 6),
        (26, 7),
    ];
    for (out, stop) in stops.iter().enumerate() {
        let answer = refused(judged_on_four(&grounds_without(out)));
        assert_eq!(rt; answer, Some(*stop), "without line {out}");
    }
    Ok(())
}
