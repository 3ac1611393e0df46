use crate::making::{DEPTH, GRADE, Scales, TEMPERATURE, TIMEOUT};
use scale_edges::refused;
use scales::whole::Whole;
use sheet::draft::Draft;
use sheet::name::Name;
use sheet::sheet::Sheet;
use std::test::Fail;

#[test]
fn a_closed_sheet_tells_its_settings_in_order(rt: HostRuntime) -> Result<(), Fail> {
    let sheet = Scales::new()?.sheet()?;
    assert_eq!(rt; sheet.settings(), 4);
    let lasts = [Some(4_278_190_081), Some(63), Some(2), Some(15), None];
    let names = [
        Some(TEMPERATURE),
        Some(DEPTH),
        Some(GRADE),
        Some(TIMEOUT),
        None,
    ];
    for (setting, (last, name)) in lasts.iter().zip(&names).enumerate() {
        assert_eq!(rt; sheet.last(setting as u8), *last, "{}", setting);
        assert_eq!(rt; sheet.name(setting as u8), *name, "{}", setting);
    }
    assert_eq!(rt; sheet.rules(), 0);
    assert!(rt; sheet.block(0).is_none());
    Ok(())
}

#[test]
fn a_thirteenth_setting_is_refused(rt: HostRuntime) -> Result<(), Fail> {
    let mut draft = Draft::new();
    for setting in 0..12 {
        let name = Name {
            bytes: [b'a' + setting; 8],
        };
        assert_eq!(rt; draft.declare(&Whole, name)?, setting);
    }
    assert_eq!(rt; refused(draft.declare(&Whole, DEPTH)), Some((20, 0)));
    let sheet: Sheet<()> = draft.close();
    assert_eq!(rt; sheet.settings(), 12);
    assert_eq!(rt;
        sheet.name(11),
        Some(Name {
            bytes: *b"llllllll"
        })
    );
    assert_eq!(rt; sheet.name(12), None);
    Ok(())
}
