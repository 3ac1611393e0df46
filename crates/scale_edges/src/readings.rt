use crate::{refused, stands_at};
use scales::reading::Reading;
use scales::scale::Scale;

#[test]
fn readings_stand_in_their_places(rt: HostRuntime) {
    let table = [
        (f32::NEG_INFINITY, 0),
        (f32::MIN, 1),
        (-1.0, 1_073_741_824),
        (-1e-45, 2_139_095_039),
        (-0.0, 2_139_095_040),
        (0.0, 2_139_095_041),
        // the smallest and the largest subnormal, and the smallest normal number
        (1e-45, 2_139_095_042),
        (1.1754942e-38, 2_147_483_648),
        (f32::MIN_POSITIVE, 2_147_483_649),
        (1.0, 3_204_448_257),
        (f32::MAX, 4_278_190_080),
        (f32::INFINITY, 4_278_190_081),
    ];
    for (v, p) in table {
        assert!(rt; stands_at(&Reading, v, p), "{v} at {p}");
    }
    assert_eq!(rt; Reading.last(), 4_278_190_081);
}

#[test]
fn what_is_no_reading_is_refused(rt: HostRuntime) {
    for v in [f32::NAN, -f32::NAN, f32::INFINITY - f32::INFINITY] {
        assert_eq!(rt; refused(Reading.place(v)), Some((1, 0)));
    }
    for p in [4_278_190_082, u32::MAX] {
        assert_eq!(rt; refused(Reading.value(p)), Some((1, 0)), "{}", p);
    }
}
