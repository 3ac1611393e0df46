// A "none", with the record of its grounds before the judge.
use crate::making::{Four, Scales, at_least, at_most};
use crate::profiles::solved;
use blocks::rule::Rule;
use record::sink::Record;
use scale_edges::refused;
use scales::refusal::Refusal;
use sheet::sheet::Sheet;
use std::test::Fail;

// Each of depth and timeout is at one of two ends, and every pair of ends is ruled out.
fn post_contradiction(scales: &Scales, sheet: &mut Sheet<Four>) -> Result<(), Refusal> {
    let low_low = [
        at_most(1, &scales.depth, 16)?,
        at_most(3, &scales.timeout, 8)?,
    ];
    let low_high = [
        at_most(1, &scales.depth, 16)?,
        at_least(3, &scales.timeout, 9)?,
    ];
    let high_low = [
        at_least(1, &scales.depth, 17)?,
        at_most(3, &scales.timeout, 8)?,
    ];
    let high_high = [
        at_least(1, &scales.depth, 17)?,
        at_least(3, &scales.timeout, 9)?,
    ];
    for bounds in [low_low, low_high, high_low, high_high] {
        sheet.post(&Rule { bounds: &bounds })?;
    }
    Ok(())
}

// The lines of the search on them: first for a shallow queue, then for any.
const GROUNDS: [&'static [u8; 10]; 7] = [
    b"t    3  0\n",
    b"r    2  3\n",
    b"k  100  0\n",
    b"t    1  0\n",
    b"r    0  3\n",
    b"r  100  1\n",
    b"e    0  0\n",
];

#[test]
fn the_record_of_a_none_is_accepted(rt: HostRuntime) -> Result<(), Fail> {
    let scales = Scales::new()?;
    let mut sheet = scales.sheet()?;
    post_contradiction(&scales, &mut sheet)?;
    let mut area = [None; 193];
    let mut buffer = [b'.'; 80];
    let mut record = Record::new(&mut buffer);
    let verdict = solved(&sheet, &mut area, &mut record)?;
    assert!(rt; verdict.found.is_none());
    assert_eq!(rt; verdict.lines, 7);
    for (line, bytes) in record.written().chunks(10).zip(&GROUNDS) {
        assert_eq!(rt; line, bytes.as_slice());
    }
    let written = record.len();
    assert_eq!(rt; written, 70);
    assert_eq!(rt; buffer[70..], *b"..........".as_slice());
    assert_eq!(rt; sheet.judge(&buffer[0..70], &mut area), Ok(()));
    Ok(())
}

#[test]
fn a_tampered_record_is_refused(rt: HostRuntime) -> Result<(), Fail> {
    let scales = Scales::new()?;
    let mut sheet = scales.sheet()?;
    post_contradiction(&scales, &mut sheet)?;
    let mut area = [None; 193];
    let mut buffer = [b'.'; 70];
    let mut record = Record::new(&mut buffer);
    let _ = solved(&sheet, &mut area, &mut record)?;
    // the last line is missing
    assert_eq!(rt;
        refused(sheet.judge(&buffer[0..60], &mut area)),
        Some((26, 7))
    );
    // the byte 10 of the last line is missing
    assert_eq!(rt;
        refused(sheet.judge(&buffer[0..69], &mut area)),
        Some((6, 7))
    );
    // line 2 names setting 1, where the two blocks do not meet
    buffer[18] = b'1';
    assert_eq!(rt; refused(sheet.judge(&buffer, &mut area)), Some((10, 2)));
    Ok(())
}

#[test]
fn a_full_record_does_not_change_the_verdict(rt: HostRuntime) -> Result<(), Fail> {
    let scales = Scales::new()?;
    let mut sheet = scales.sheet()?;
    post_contradiction(&scales, &mut sheet)?;
    let mut area = [None; 193];
    let mut buffer = [b'.'; 25];
    let mut record = Record::new(&mut buffer);
    let verdict = solved(&sheet, &mut area, &mut record)?;
    assert!(rt; verdict.found.is_none());
    assert_eq!(rt; verdict.lines, 7);
    let Some(refusal) = verdict.refused else {
        return Err(Fail::new("not refused"));
    };
    assert_eq!(rt; (refusal.number, refusal.line), (25, 3));
    Ok(())
}
