// Rules on the four settings, and the profile that the search finds.
use crate::making::{Four, Scales, at_least, at_most};
use blocks::rule::Rule;
use blocks::sink::Sink;
use blocks::slot::Slot;
use record::sink::Record;
use scale_edges::refused;
use scales::refusal::Refusal;
use scales::scale::Scale;
use search::verdict::Verdict;
use sheet::sheet::Sheet;
use std::test::Fail;

// No heat over 70 without a long timeout, no deep queue without a good grade, and each asked for.
fn post_all(scales: &Scales, sheet: &mut Sheet<Four>) -> Result<(), Refusal> {
    let cool = [
        at_most(0, &scales.temperature, 70.0)?,
        at_least(3, &scales.timeout, 12)?,
    ];
    sheet.post(&Rule { bounds: &cool })?;
    let good = [
        at_most(1, &scales.depth, 16)?,
        at_least(2, &scales.grade, b'H')?,
    ];
    sheet.post(&Rule { bounds: &good })?;
    let hot = [at_least(0, &scales.temperature, 70.5)?];
    sheet.post(&Rule { bounds: &hot })?;
    let deep = [at_least(1, &scales.depth, 17)?];
    sheet.post(&Rule { bounds: &deep })
}

// The search with any sink. The tests need no more than the verdict.
pub(crate) fn solved<K: Sink>(
    sheet: &Sheet<Four>,
    area: &mut [Slot],
    sink: &mut K,
) -> Result<Verdict, Refusal> {
    sheet.solve(area, sink)
}

#[test]
fn a_profile_is_read_back_through_the_scales(rt: HostRuntime) -> Result<(), Fail> {
    let scales = Scales::new()?;
    let mut sheet = scales.sheet()?;
    post_all(&scales, &mut sheet)?;
    assert_eq!(rt; sheet.rules(), 4);
    let mut area = [None; 193];
    let mut buffer = [b' '; 100];
    let mut record = Record::new(&mut buffer);
    let verdict = solved(&sheet, &mut area, &mut record)?;
    let Some(region) = verdict.found else {
        return Err(Fail::new("no profile"));
    };
    assert_eq!(rt; scales.temperature.value(region.low(0))?, 70.5);
    assert_eq!(rt; scales.depth.value(region.low(1))?, 17);
    assert_eq!(rt; scales.grade.value(region.low(2))?, b'H');
    assert_eq!(rt; scales.timeout.value(region.low(3))?, 12);
    // every rule forced its bound, so there was no conflict and no line
    assert_eq!(rt; verdict.lines, 0);
    assert_eq!(rt; record.len(), 0);
    Ok(())
}

#[test]
fn a_refused_rule_does_not_stand(rt: HostRuntime) -> Result<(), Fail> {
    let scales = Scales::new()?;
    let mut sheet = scales.sheet()?;
    post_all(&scales, &mut sheet)?;
    let always = [
        at_most(1, &scales.depth, 40)?,
        at_least(1, &scales.depth, 32)?,
    ];
    assert_eq!(rt;
        refused(sheet.post(&Rule { bounds: &always })),
        Some((5, 0))
    );
    assert_eq!(rt; sheet.rules(), 4);
    assert!(rt; sheet.block(4).is_none());
    let Some(cold) = sheet.block(2) else {
        return Err(Fail::new("rule 2"));
    };
    // the block of "at least 70.5" has what is below it
    assert_eq!(rt; scales.temperature.value(cold.low(0))?, f32::NEG_INFINITY);
    assert_eq!(rt; scales.temperature.value(cold.high(0))?, 70.49999);
    Ok(())
}

#[test]
fn a_work_area_that_is_too_small(rt: HostRuntime) -> Result<(), Fail> {
    let sheet = Scales::new()?.sheet()?;
    let mut buffer = [b' '; 10];
    let mut record = Record::new(&mut buffer);
    let mut small = [None; 192];
    assert_eq!(rt;
        refused(solved(&sheet, &mut small, &mut record)),
        Some((22, 0))
    );
    // with no rule every profile will do
    let mut area = [None; 193];
    let verdict = solved(&sheet, &mut area, &mut record)?;
    assert!(rt; verdict.found.is_some());
    assert_eq!(rt; verdict.lines, 0);
    Ok(())
}
