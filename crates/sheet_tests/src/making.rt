// The sheet that the tests share.
use blocks::bound::Bound;
use scales::grade::Grade;
use scales::reading::Reading;
use scales::refusal::Refusal;
use scales::scale::Scale;
use scales::settings::{Also, Empty};
use scales::side::Side;
use scales::whole::Whole;
use scales::window::Window;
use sheet::draft::Draft;
use sheet::name::Name;
use sheet::sheet::Sheet;

// The scales of the four settings: a reading, a whole window, a grade, and a window on a window.
#[derive(Drop)]
pub(crate) struct Scales {
    pub(crate) temperature: Reading,
    pub(crate) depth: Window<Whole>,
    pub(crate) grade: Grade,
    pub(crate) timeout: Window<Window<Whole>>,
}

// The same, side by side.
pub(crate) type Four = Also<
    Reading,
    Also<Window<Whole>, Also<Grade, Also<Window<Window<Whole>>, Empty>>>,
>;

pub(crate) const TEMPERATURE: Name = Name {
    bytes: *b"temp    ",
};

pub(crate) const DEPTH: Name = Name {
    bytes: *b"queue   ",
};

pub(crate) const GRADE: Name = Name {
    bytes: *b"grade   ",
};

pub(crate) const TIMEOUT: Name = Name {
    bytes: *b"timeout ",
};

impl Scales {
    pub(crate) fn new() -> Result<Scales, Refusal> {
        Ok(Scales {
            temperature: Reading,
            depth: Window::new(Whole, 1, 64)?,
            grade: Grade::new(b"LMH")?,
            timeout: Window::new(Window::new(Whole, 1, 30)?, 5, 20)?,
        })
    }

    // A draft with the four settings.
    pub(crate) fn draft(&self) -> Result<Draft, Refusal> {
        let mut draft = Draft::new();
        draft.declare(&self.temperature, TEMPERATURE)?;
        draft.declare(&self.depth, DEPTH)?;
        draft.declare(&self.grade, GRADE)?;
        draft.declare(&self.timeout, TIMEOUT)?;
        Ok(draft)
    }

    // The sheet of the four settings, with no rule.
    pub(crate) fn sheet(&self) -> Result<Sheet<Four>, Refusal> {
        Ok(self.draft()?.close())
    }
}

// A bound on a setting at a value of its scale.
pub(crate) fn at_most<S: Scale>(setting: u8, scale: &S, value: S::Value) -> Result<Bound, Refusal> {
    Bound::new(setting, Side::AtMost, scale, value)
}

pub(crate) fn at_least<S: Scale>(
    setting: u8,
    scale: &S,
    value: S::Value,
) -> Result<Bound, Refusal> {
    Bound::new(setting, Side::AtLeast, scale, value)
}
