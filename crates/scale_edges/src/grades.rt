use crate::{refused, stands_at};
use scales::grade::Grade;
use scales::scale::Scale;
use std::test::Fail;

#[test]
fn sixteen_grades_stand_in_their_order(rt: HostRuntime) -> Result<(), Fail> {
    let list = b"~}ABCDEFGHIJKL\"!";
    let grade = Grade::new(list)?;
    assert_eq!(rt; grade.last(), 15);
    for (v, p) in [(b'~', 0), (b'}', 1), (b'A', 2), (b'"', 14), (b'!', 15)] {
        assert!(rt; stands_at(&grade, v, p), "{v} at {p}");
    }
    assert_eq!(rt; refused(grade.place(b'M')), Some((1, 0)));
    assert_eq!(rt; refused(grade.value(16)), Some((1, 0)));
    Ok(())
}

#[test]
fn one_grade_has_one_position(rt: HostRuntime) -> Result<(), Fail> {
    for b in [33, 126] {
        let grade = Grade::new(&[b])?;
        assert_eq!(rt; grade.last(), 0);
        assert!(rt; stands_at(&grade, b, 0), "{}", b);
        assert_eq!(rt; refused(grade.value(1)), Some((1, 0)));
        // the rest of its room holds no grade
        assert_eq!(rt; refused(grade.place(0)), Some((1, 0)));
    }
    Ok(())
}

#[test]
fn bad_lists_are_refused(rt: HostRuntime) {
    let empty: [u8; 0] = [];
    assert_eq!(rt; refused(Grade::new(&empty)), Some((2, 0)));
    assert_eq!(rt;
        refused(Grade::new(b"ABCDEFGHIJKLMNOPQ")),
        Some((2, 0)),
        "seventeen"
    );
    assert_eq!(rt; refused(Grade::new(b"ABA")), Some((2, 0)), "a repeat");
    assert_eq!(rt; refused(Grade::new(b"A B")), Some((2, 0)), "a blank inside");
    for b in [0, 32, 127, 255] {
        assert_eq!(rt; refused(Grade::new(&[b])), Some((2, 0)), "{}", b);
    }
}
