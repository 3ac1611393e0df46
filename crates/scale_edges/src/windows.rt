use crate::{refused, stands_at};
use scales::grade::Grade;
use scales::reading::Reading;
use scales::scale::Scale;
use scales::whole::Whole;
use scales::window::Window;
use std::test::Fail;

#[test]
fn a_window_counts_from_its_first_value(rt: HostRuntime) -> Result<(), Fail> {
    let depth = Window::new(Whole, 1, 64)?;
    assert_eq!(rt; depth.last(), 63);
    for (v, p) in [(1, 0), (2, 1), (63, 62), (64, 63)] {
        assert!(rt; stands_at(&depth, v, p), "{v} at {p}");
    }
    for v in [0, 65, -1_000_000_000, 1_000_000_001] {
        assert_eq!(rt; refused(depth.place(v)), Some((1, 0)), "{}", v);
    }
    assert_eq!(rt; refused(depth.value(64)), Some((1, 0)));
    Ok(())
}

#[test]
fn a_window_of_one_value_and_one_of_all(rt: HostRuntime) -> Result<(), Fail> {
    let five = Window::new(Whole, 5, 5)?;
    assert_eq!(rt; five.last(), 0);
    assert!(rt; stands_at(&five, 5, 0));
    assert_eq!(rt; refused(five.place(4)), Some((1, 0)));
    assert_eq!(rt; refused(five.place(6)), Some((1, 0)));
    assert_eq!(rt; refused(five.value(1)), Some((1, 0)));
    let all = Window::new(Reading, f32::NEG_INFINITY, f32::INFINITY)?;
    assert_eq!(rt; all.last(), 4_278_190_081);
    assert!(rt; stands_at(&all, -0.0, 2_139_095_040));
    Ok(())
}

#[test]
fn the_two_zeros_are_two_values(rt: HostRuntime) -> Result<(), Fail> {
    let zeros = Window::new(Reading, -0.0, 0.0)?;
    assert_eq!(rt; zeros.last(), 1);
    assert!(rt; stands_at(&zeros, -0.0, 0));
    assert!(rt; stands_at(&zeros, 0.0, 1));
    assert_eq!(rt; refused(Window::new(Reading, 0.0, -0.0)), Some((2, 0)));
    Ok(())
}

#[test]
fn a_window_on_a_window(rt: HostRuntime) -> Result<(), Fail> {
    let inner = Window::new(Window::new(Whole, 1, 64)?, 8, 16)?;
    assert_eq!(rt; inner.last(), 8);
    assert!(rt; stands_at(&inner, 8, 0));
    assert!(rt; stands_at(&inner, 16, 8));
    // on the window below, and not on this one
    assert_eq!(rt; refused(inner.place(7)), Some((1, 0)));
    assert_eq!(rt; refused(inner.place(17)), Some((1, 0)));
    assert_eq!(rt; refused(inner.value(9)), Some((1, 0)));
    let graded = Window::new(Window::new(Grade::new(b"EDCBA")?, b'D', b'A')?, b'C', b'C')?;
    assert_eq!(rt; graded.last(), 0);
    assert!(rt; stands_at(&graded, b'C', 0));
    Ok(())
}

#[test]
fn bad_ends_are_refused(rt: HostRuntime) -> Result<(), Fail> {
    for (from, to) in [(64, 1), (1, 0), (-1_000_000_001, 0), (0, 1_000_000_001)] {
        assert_eq!(rt;
            refused(Window::new(Whole, from, to)),
            Some((2, 0)),
            "{}",
            from
        );
    }
    assert_eq!(rt;
        refused(Window::new(Window::new(Whole, 1, 64)?, 1, 65)),
        Some((2, 0))
    );
    assert_eq!(rt; refused(Window::new(Reading, f32::NAN, 0.0)), Some((2, 0)));
    assert_eq!(rt;
        refused(Window::new(Grade::new(b"LMH")?, b'H', b'L')),
        Some((2, 0))
    );
    Ok(())
}
