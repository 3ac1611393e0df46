use crate::making::{between, settings, span};
use blocks::block::Block;
use blocks::status::Status;
use std::test::Fail;

#[test]
fn each_status(rt: HostRuntime) -> Result<(), Fail> {
    let lasts = settings(12)?;
    for setting in [0, 11] {
        let block = span(&lasts, setting, 20, 40)?;
        let table = [
            ((0, 19), Status::Dead),
            ((41, 63), Status::Dead),
            ((20, 40), Status::Broken),
            ((30, 30), Status::Broken),
            ((19, 40), Status::Forcing((setting, 0, 19))),
            ((20, 41), Status::Forcing((setting, 1, 41))),
            ((0, 63), Status::Open),
        ];
        for (region, status) in table {
            let region = span(&lasts, setting, region.0, region.1)?;
            assert_eq!(rt; block.status(&region), status);
        }
        // a block without a bound
        assert_eq!(rt; Block::everything(&lasts).status(&block), Status::Broken);
    }
    Ok(())
}

#[test]
fn first_open_bound(rt: HostRuntime) -> Result<(), Fail> {
    let lasts = settings(12)?;
    let all = Block::everything(&lasts);
    let last = span(&lasts, 11, 20, 40)?;
    let block = between(&last, 3, 0, 7)?;
    assert_eq!(rt; block.first_open(&all), Some((3, 1, 8)));
    assert_eq!(rt; last.first_open(&all), Some((11, 0, 19)));
    let above = span(&lasts, 11, 30, 63)?;
    assert_eq!(rt; last.first_open(&above), Some((11, 1, 41)));
    assert_eq!(rt; last.first_open(&last), None);
    assert_eq!(rt; all.first_open(&last), None);
    Ok(())
}
