use crate::making::settings;
use crate::{has, refused};
use blocks::block::Block;
use blocks::lasts::Lasts;
use scales::reading::Reading;
use scales::scale::Scale;
use scales::whole::Whole;
use scales::window::Window;
use std::test::Fail;

#[test]
fn twelve_settings_and_no_thirteenth(rt: HostRuntime) -> Result<(), Fail> {
    let mut lasts = settings(11)?;
    assert_eq!(rt; lasts.declare(&Reading)?, 11);
    assert_eq!(rt; lasts.count(), 12);
    assert_eq!(rt; refused(lasts.declare(&Whole)), Some((20, 0)));
    assert_eq!(rt; lasts.count(), 12);
    for (setting, last) in [(0, 63), (10, 63), (11, 4_278_190_081), (12, 0), (255, 0)] {
        assert_eq!(rt; lasts.last(setting), last, "{}", setting);
    }
    Ok(())
}

#[test]
fn no_setting_and_one_of_one_value(rt: HostRuntime) -> Result<(), Fail> {
    let mut lasts = Lasts::new();
    assert_eq!(rt; lasts.count(), 0);
    assert!(rt; has(&Block::everything(&lasts), 0, 0, 0));
    let five = Window::new(Whole, 5, 5)?;
    assert_eq!(rt; lasts.declare(&five)?, 0);
    assert_eq!(rt; lasts.count(), 1);
    assert_eq!(rt; lasts.last(0), 0);
    Ok(())
}
