ghost use Rattle.std.specs.Prelude.{◌≡◌, ◌≤◌, MatchBool};
ghost use Rattle.scales.specs.Answers.{on_scale};
ghost use Rattle.scales.specs.Checks.{Outcome};
ghost use Rattle.blocks.specs.Bounds.{bound_at};
ghost use Rattle.blocks.specs.Views.{ranges};
ghost use Rattle.tour.specs.Limits.{Between};

use crate::limit::Limit;
use crate::words::Amount;
use blocks::block::Block;
use blocks::bound::Bound;
use scales::grade::Grade;
use scales::reading::Reading;
use scales::refusal::Refusal;
use scales::scale::Scale;
use scales::settings::{Also, Empty};
use scales::whole::Whole;
use scales::window::Window;
use sheet::draft::Draft;
use sheet::name::Name;
use std::fmt;

// What a setting of the card is about.
#[derive(Clone, Copy)]
pub(crate) enum Quantity {
    QueueDepth,
    Timeout,
    Temperature,
    Grade,
}

impl Quantity {
    // what is written behind a value
    pub(crate) fn unit(self) -> &'static str {
        match self {
            Quantity::QueueDepth | Quantity::Grade => "",
            Quantity::Timeout => " s",
            Quantity::Temperature => " C",
        }
    }

    // the name of its setting on the sheet
    pub(crate) fn sheet_name(self) -> Name {
        let bytes = match self {
            Quantity::QueueDepth => *b"queue   ",
            Quantity::Timeout => *b"timeout ",
            Quantity::Temperature => *b"temp    ",
            Quantity::Grade => *b"grade   ",
        };
        Name { bytes }
    }
}

impl fmt::Display for Quantity {
    fn fmt<W: fmt::Write>(&self, f: &mut fmt::Formatter<W>) -> fmt::Result {
        f.write_str(match self {
            Quantity::QueueDepth => "queue depth",
            Quantity::Timeout => "timeout",
            Quantity::Temperature => "temperature",
            Quantity::Grade => "grade",
        })
    }
}

// A setting: what it is about, its number, and the scale of its values.
#[derive(Drop)]
pub(crate) struct Setting<S> {
    pub(crate) quantity: Quantity,
    pub(crate) number: u8,
    pub(crate) scale: S,
}

impl<S: Scale> Setting<S> {
    // A limit as a bound on this setting; refused where its value is not on the scale.
    pub(crate) fn bound(&self, limit: Limit<S::Value>) -> Result<Bound, Refusal>
        ensures { Outcome (on_scale (S.Scale.on self.now.scale limit.value)) (λ b. b ≡ bound_at limit.side self.now.number (S.Scale.position self.now.scale limit.value)) result }
    {
        Bound::new(self.number, limit.side, &self.scale, limit.value)
    }

    // A value of this setting, with its unit.
    pub(crate) fn amount(&self, value: S::Value) -> Amount<S::Value>
        ensures { (result.quantity ≡ self.now.quantity) × (result.value ≡ value) }
    {
        let quantity = self.quantity;
        Amount { quantity, value }
    }

    // The value at a position, with its unit; refused where the position is over the last.
    pub(crate) fn amount_at(&self, position: u32) -> Result<Amount<S::Value>, Refusal>
        ensures { Outcome (on_scale (position ≤ S.Scale.top self.now.scale)) (λ a. (a.quantity ≡ self.now.quantity) × (a.value ≡ S.Scale.standing self.now.scale position)) result }
    {
        Ok(self.amount(self.scale.value(position)?))
    }

    // Whether a value stands between the ends of a block; refused where it is not on the scale.
    pub(crate) fn is_between(&self, block: &Block, v: S::Value) -> Result<bool, Refusal>
        ensures { Outcome (on_scale (S.Scale.on self.now.scale v)) (λ b. MatchBool b (Between (ranges block.now) self.now.number (S.Scale.position self.now.scale v)) (Between (ranges block.now) self.now.number (S.Scale.position self.now.scale v) → ⊥)) result }
    {
        let position = self.scale.place(v)?;
        Ok(block.low(self.number) <= position && position <= block.high(self.number))
    }
}

// The scales of the card's settings, in order.
pub(crate) type Scales = Also<
    Window<Whole>,
    Also<Window<Whole>, Also<Reading, Also<Grade, Empty>>>,
>;

// The card's settings.
#[derive(Drop)]
pub(crate) struct Card {
    pub(crate) depth: Setting<Window<Whole>>,
    pub(crate) timeout: Setting<Window<Whole>>,
    pub(crate) temperature: Setting<Reading>,
    pub(crate) grade: Setting<Grade>,
}

impl Card {
    // The card, with its settings declared on the draft in order.
    pub(crate) fn new(draft: &mut Draft) -> Result<Card, Refusal> {
        let depth = Window::new(Whole, 1, 64)?;
        let depth = declare(draft, Quantity::QueueDepth, depth)?;
        let timeout = Window::new(Whole, 1, 30)?;
        let timeout = declare(draft, Quantity::Timeout, timeout)?;
        let temperature = declare(draft, Quantity::Temperature, Reading)?;
        let grade = declare(draft, Quantity::Grade, Grade::new(b"LMH")?)?;
        Ok(Card {
            depth,
            timeout,
            temperature,
            grade,
        })
    }
}

// One setting more, behind the others.
fn declare<S: Scale + Drop>(
    draft: &mut Draft,
    quantity: Quantity,
    scale: S,
) -> Result<Setting<S>, Refusal> {
    let number = draft.declare(&scale, quantity.sheet_name())?;
    Ok(Setting {
        quantity,
        number,
        scale,
    })
}
