use crate::making::settings;
use crate::{has, refused};
use blocks::bound::Bound;
use blocks::lasts::Lasts;
use blocks::rule::Rule;
use blocks::ruleset::RuleSet;
use scales::whole::Whole;
use scales::window::Window;
use std::test::Fail;

#[test]
fn how_many_bounds(rt: HostRuntime) -> Result<(), Fail> {
    let mut rules = RuleSet::new(settings(2)?);
    let none: [Bound; 0] = [];
    assert_eq!(rt; refused(rules.post(&Rule { bounds: &none })), Some((4, 0)));
    // the fifth is told before the undeclared setting
    let five = [Bound::AtMost(9, 0); 5];
    assert_eq!(rt; refused(rules.post(&Rule { bounds: &five })), Some((4, 0)));
    assert_eq!(rt; rules.count(), 0);
    // four bounds on one setting, two on each side
    let four = [
        Bound::AtMost(0, 3),
        Bound::AtLeast(0, 50),
        Bound::AtMost(0, 7),
        Bound::AtLeast(0, 40),
    ];
    let standing = rules.problem().admit(&Rule { bounds: &four })?;
    assert!(rt; has(&standing.block, 0, 8, 39));
    assert!(rt; has(&standing.block, 1, 0, 63));
    Ok(())
}

#[test]
fn bound_by_bound(rt: HostRuntime) -> Result<(), Fail> {
    let rules = RuleSet::new(settings(12)?);
    let table = [
        (Bound::AtMost(12, 0), Bound::AtMost(11, 64), Some((3, 1))),
        (Bound::AtMost(11, 64), Bound::AtMost(12, 0), Some((1, 1))),
        (Bound::AtMost(11, 62), Bound::AtMost(12, 0), Some((3, 2))),
        (Bound::AtMost(11, 62), Bound::AtLeast(0, 64), Some((1, 2))),
        (Bound::AtMost(11, 62), Bound::AtLeast(0, 63), None),
        (Bound::AtMost(11, 63), Bound::AtLeast(0, 63), Some((5, 0))),
        (Bound::AtLeast(11, 0), Bound::AtLeast(0, 63), Some((5, 0))),
        (Bound::AtMost(0, 3), Bound::AtLeast(0, 4), Some((5, 0))),
        (Bound::AtMost(0, 3), Bound::AtLeast(0, 5), None),
    ];
    for (one, other, answer) in table {
        let bounds = [one, other];
        assert_eq!(rt;
            refused(rules.problem().admit(&Rule { bounds: &bounds })),
            answer
        );
    }
    Ok(())
}

#[test]
fn without_a_choice(rt: HostRuntime) -> Result<(), Fail> {
    let bounds = [Bound::AtMost(0, 0)];
    let rule = Rule { bounds: &bounds };
    // no setting
    let none = RuleSet::new(Lasts::new());
    assert_eq!(rt; refused(none.problem().admit(&rule)), Some((3, 1)));
    // a setting of one value, which every profile has
    let mut lasts = Lasts::new();
    lasts.declare(&Window::new(Whole, 5, 5)?)?;
    let one = RuleSet::new(lasts);
    assert_eq!(rt; refused(one.problem().admit(&rule)), Some((5, 0)));
    Ok(())
}

#[test]
fn forty_eight_rules_and_no_more(rt: HostRuntime) -> Result<(), Fail> {
    let mut rules = RuleSet::new(settings(1)?);
    let taken = [Bound::AtMost(0, 31)];
    let always = [Bound::AtMost(0, 63)];
    for _ in 0..48 {
        rules.post(&Rule { bounds: &taken })?;
    }
    assert_eq!(rt; rules.count(), 48);
    assert_eq!(rt;
        refused(rules.post(&Rule { bounds: &taken })),
        Some((21, 0))
    );
    // what is wrong with the rule is told first
    assert_eq!(rt;
        refused(rules.post(&Rule { bounds: &always })),
        Some((5, 0))
    );
    assert_eq!(rt; rules.count(), 48);
    for standing in rules.problem().rules() {
        assert!(rt; has(&standing.block, 0, 32, 63));
    }
    Ok(())
}
