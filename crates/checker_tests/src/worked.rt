// The settings, the rules and the lines that the tests share.
use blocks::bound::Bound;
use blocks::lasts::Lasts;
use blocks::line::Line;
use blocks::line::numbers::{BlockNumber, SettingNumber};
use blocks::rule::Rule;
use scales::refusal::Refusal;
use scales::whole::Whole;
use scales::window::Window;

// Two settings, x and y, of last 1.
pub(crate) fn two_settings() -> Result<Lasts, Refusal> {
    let scale = Window::new(Whole, 0, 1)?;
    let mut lasts = Lasts::new();
    lasts.declare(&scale)?;
    lasts.declare(&scale)?;
    Ok(lasts)
}

// x ≤ 0 or y ≤ 0; x ≤ 0 or y ≥ 1; x ≥ 1 or y ≤ 0; x ≥ 1 or y ≥ 1.
const FOUR_RULES: [[Bound; 2]; 4] = [
    [Bound::AtMost(0, 0), Bound::AtMost(1, 0)],
    [Bound::AtMost(0, 0), Bound::AtLeast(1, 1)],
    [Bound::AtLeast(0, 1), Bound::AtMost(1, 0)],
    [Bound::AtLeast(0, 1), Bound::AtLeast(1, 1)],
];

pub(crate) fn four_rules() -> [Rule<'static>; 4] {
    [
        Rule {
            bounds: &FOUR_RULES[0],
        },
        Rule {
            bounds: &FOUR_RULES[1],
        },
        Rule {
            bounds: &FOUR_RULES[2],
        },
        Rule {
            bounds: &FOUR_RULES[3],
        },
    ]
}

pub(crate) fn t(block: usize) -> Line {
    Line::Take(BlockNumber::stopping(block))
}

pub(crate) fn r(block: usize, setting: u8) -> Line {
    Line::Resolve(BlockNumber::stopping(block), SettingNumber::from(setting))
}

pub(crate) fn k(block: usize) -> Line {
    Line::Keep(BlockNumber::stopping(block))
}

// The grounds for a "none" on these rules: first for x at 0, then for both.
pub(crate) fn grounds() -> [Line; 7] {
    [t(3), r(2, 1), k(100), t(1), r(0, 1), r(100, 0), Line::End]
}
