use crate::has;
use crate::making::{NoBlock, settings, span};
use blocks::block::Block;
use blocks::bound::Bound;
use std::test::Fail;

#[test]
fn narrow_and_undo(rt: HostRuntime) -> Result<(), Fail> {
    let region = span(&settings(12)?, 11, 10, 20)?;
    let table = [
        (Bound::AtMost(11, 15), 20, 10, 15),
        (Bound::AtMost(11, 10), 20, 10, 10),
        (Bound::AtMost(11, 99), 20, 10, 20),
        (Bound::AtLeast(11, 15), 10, 15, 20),
        (Bound::AtLeast(11, 20), 10, 20, 20),
        (Bound::AtLeast(11, 0), 10, 10, 20),
    ];
    for (bound, end, low, high) in table {
        let narrowed = region.narrow(bound).ok_or(NoBlock)?;
        assert!(rt; has(&narrowed, 11, low, high));
        let back = narrowed.undo(bound, end).ok_or(NoBlock)?;
        assert!(rt; region.is_inside(&back) && back.is_inside(&region));
    }
    Ok(())
}

#[test]
fn to_nothing(rt: HostRuntime) -> Result<(), Fail> {
    let region = span(&settings(1)?, 0, 10, 20)?;
    assert!(rt; region.narrow(Bound::AtMost(0, 9)).is_none());
    assert!(rt; region.narrow(Bound::AtLeast(0, 21)).is_none());
    // a setting that is not declared stands at 0
    assert!(rt; region.narrow(Bound::AtMost(12, 0)).is_some());
    assert!(rt; region.narrow(Bound::AtLeast(12, 1)).is_none());
    // ends that are no block's
    assert!(rt; region.undo(Bound::AtMost(0, 0), 9).is_none());
    assert!(rt; region.undo(Bound::AtLeast(0, 0), 21).is_none());
    assert!(rt; region.undo(Bound::AtMost(12, 0), 1).is_none());
    Ok(())
}

#[test]
fn inside(rt: HostRuntime) -> Result<(), Fail> {
    let lasts = settings(12)?;
    let all = Block::everything(&lasts);
    for setting in [0, 11] {
        let block = span(&lasts, setting, 10, 20)?;
        assert!(rt; block.is_inside(&block) && block.is_inside(&all) && !all.is_inside(&block));
        for (low, high, answer) in [
            (10, 19, true),
            (11, 20, true),
            (9, 20, false),
            (10, 21, false),
        ] {
            let one = span(&lasts, setting, low, high)?;
            assert_eq!(rt; one.is_inside(&block), answer, "{low} to {high}");
        }
    }
    Ok(())
}
