use crate::making::{between, settings, span};
use crate::{has, refused};
use std::test::Fail;

#[test]
fn overlap_adjoin_apart(rt: HostRuntime) -> Result<(), Fail> {
    let lasts = settings(12)?;
    let table = [
        ((0, 30), (31, 63), true),
        ((31, 63), (0, 30), true),
        ((0, 30), (32, 63), false),
        ((32, 63), (0, 30), false),
        ((0, 40), (20, 63), true),
        ((0, 63), (5, 5), true),
    ];
    for setting in [0, 11] {
        for (one, other, resolves) in table {
            let one = span(&lasts, setting, one.0, one.1)?;
            let other = span(&lasts, setting, other.0, other.1)?;
            if resolves {
                assert!(rt; has(&one.resolve(&other, setting)?, setting, 0, 63));
            } else {
                assert_eq!(rt; refused(one.resolve(&other, setting)), Some((10, 0)));
            }
        }
    }
    Ok(())
}

#[test]
fn the_overlap_elsewhere(rt: HostRuntime) -> Result<(), Fail> {
    let lasts = settings(2)?;
    let low = span(&lasts, 0, 0, 30)?;
    let high = span(&lasts, 0, 31, 63)?;
    let one = between(&low, 1, 10, 40)?;
    let other = between(&high, 1, 40, 50)?;
    let both = one.resolve(&other, 0)?;
    assert!(rt; has(&both, 0, 0, 63));
    assert!(rt; has(&both, 1, 40, 40));
    // adjoining is not enough on another setting
    let beyond = between(&high, 1, 41, 50)?;
    assert_eq!(rt; refused(one.resolve(&beyond, 0)), Some((10, 0)));
    // on a setting that is not declared they overlap, but not on setting 0
    assert_eq!(rt; refused(one.resolve(&other, 12)), Some((10, 0)));
    assert!(rt; has(&one.resolve(&low, 12)?, 1, 10, 40));
    Ok(())
}
