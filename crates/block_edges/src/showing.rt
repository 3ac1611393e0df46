use blocks::line::Line;
use blocks::line::numbers::{BlockNumber, SettingNumber};
use std::test::Fail;

// A block's number and a setting's are told apart where a line is shown.
#[test]
fn numbers_are_shown_by_what_they_number(rt: HostRuntime) -> Result<(), Fail> {
    let line = Line::Resolve(BlockNumber::stopping(103), SettingNumber::from(7));
    let shown = format!(in rt.alloc(); "{line:?}")?;
    let text = "Resolve(BlockNumber { number: 103 }, SettingNumber { number: 7 })";
    assert_eq!(rt; shown.as_str(), text);
    Ok(())
}
