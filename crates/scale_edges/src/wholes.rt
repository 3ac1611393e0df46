use crate::{refused, stands_at};
use scales::scale::Scale;
use scales::whole::Whole;

#[test]
fn whole_numbers_stand_in_their_places(rt: HostRuntime) {
    let table = [
        (-1_000_000_000, 0),
        (-999_999_999, 1),
        (-1, 999_999_999),
        (0, 1_000_000_000),
        (1, 1_000_000_001),
        (1_000_000_000, 2_000_000_000),
    ];
    for (v, p) in table {
        assert!(rt; stands_at(&Whole, v, p), "{v} at {p}");
    }
    assert_eq!(rt; Whole.last(), 2_000_000_000);
}

#[test]
fn one_past_either_end_is_refused(rt: HostRuntime) {
    for v in [-1_000_000_001, 1_000_000_001, i32::MIN, i32::MAX] {
        assert_eq!(rt; refused(Whole.place(v)), Some((1, 0)), "{}", v);
    }
    for p in [2_000_000_001, u32::MAX] {
        assert_eq!(rt; refused(Whole.value(p)), Some((1, 0)), "{}", p);
    }
}
