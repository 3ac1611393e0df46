// How the tour writes values and limits.
use crate::card::Quantity;
use crate::limit::Limit;
use sheet::name::Name;
use std::fmt;

// A kind of value that can be shown to a person, as it is printed if not said otherwise.
pub(crate) trait Show: Copy + fmt::Display {
    fn show<W: fmt::Write>(self, f: &mut fmt::Formatter<W>) -> fmt::Result {
        write!(f, "{self}")
    }
}

impl Show for i32 {}

impl Show for f32 {}

// A grade is shown as its character.
impl Show for u8 {
    fn show<W: fmt::Write>(self, f: &mut fmt::Formatter<W>) -> fmt::Result {
        let c = char::from(self);
        write!(f, "{c}")
    }
}

// A value with its unit, as "20 s".
#[derive(Clone, Copy)]
pub(crate) struct Amount<V> {
    pub(crate) quantity: Quantity,
    pub(crate) value: V,
}

impl<V: Show> fmt::Display for Amount<V> {
    fn fmt<W: fmt::Write>(&self, f: &mut fmt::Formatter<W>) -> fmt::Result {
        self.value.show(f)?;
        f.write_str(self.quantity.unit())
    }
}

// A limit in full, as "timeout at most 20 s".
#[derive(Clone, Copy)]
pub(crate) struct LimitWords<V> {
    pub(crate) quantity: Quantity,
    pub(crate) limit: Limit<V>,
}

impl<V> Limit<V> {
    // the limit in full, on a setting of this quantity
    pub(crate) fn on(self, quantity: Quantity) -> LimitWords<V> {
        LimitWords {
            quantity,
            limit: self,
        }
    }
}

impl<V: Show> fmt::Display for LimitWords<V> {
    fn fmt<W: fmt::Write>(&self, f: &mut fmt::Formatter<W>) -> fmt::Result {
        let quantity = self.quantity;
        let side = self.limit.side;
        let value = self.limit.value;
        let amount = Amount { quantity, value };
        write!(f, "{quantity} {side} {amount}")
    }
}

// The name of a setting, byte by byte.
#[derive(Clone, Copy)]
pub(crate) struct NameText(pub(crate) Name);

impl fmt::Display for NameText {
    fn fmt<W: fmt::Write>(&self, f: &mut fmt::Formatter<W>) -> fmt::Result {
        for byte in &self.0.bytes {
            let c = char::from(*byte);
            write!(f, "{c}")?;
        }
        Ok(())
    }
}
