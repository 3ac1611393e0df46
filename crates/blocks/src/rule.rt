use crate::bound::Bound;

// A rule, met when one of its bounds is. One to four bounds are admitted.
#[derive(Clone, Copy)]
pub struct Rule<'a> {
    pub bounds: &'a [Bound],
}
