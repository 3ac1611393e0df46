ghost use Rattle.std.specs.Prelude.{◌≡◌, Some};
ghost use Rattle.std.specs.Fmt.{padded};
ghost use Rattle.scales.specs.declared.refusal.Stop.{Stop};
ghost use Rattle.scales.specs.Stops.{number, layer, reason, layer_name, no_place, line_place, Numbered, unknown_text, refusal_text};

use std::error::Error;
use std::fmt;

// Why a call was stopped, one case for each reason.
#[derive(Clone, Copy, PartialEq, Eq, Debug)]
pub enum Stop {
    // a value or a position that is not on the scale
    OffScale = 1,
    // a window's end that is off its scale, ends that are reversed, or a bad list of grades
    BadScale = 2,
    // a setting that is not declared
    Undeclared = 3,
    // a rule of no bound, or of more than four
    BoundCount = 4,
    // a rule that every profile meets
    AlwaysMet = 5,
    // a line of wrong shape, or without its byte 10
    BadShape = 6,
    // quarter degrees out of their range
    OutOfDegrees = 7,
    // a text that is too long
    TextTooLong = 8,
    // a block that is unknown, or a slot that is empty or outside the work area
    UnknownBlock = 9,
    // two blocks that must not be resolved
    NotResolvable = 10,
    // an end while the work block is not everything
    NotEverything = 11,
    // a thirteenth setting
    SettingsFull = 20,
    // a forty-ninth rule
    RulesFull = 21,
    // a work area of fewer than 193 slots
    AreaTooSmall = 22,
    // a line that the judge's state does not allow
    NotAllowed = 23,
    // no slot that may be filled
    NoSlotFree = 24,
    // no room for a line more
    RecordFull = 25,
    // a record that is over without its end
    EndMissing = 26,
    // a setting declared after the settings were closed
    AfterClosing = 27,
}

// The part of the product that stops a call.
#[derive(Clone, Copy, PartialEq, Eq, Debug)]
pub enum Layer {
    Scale,
    Sheet,
    Search,
    Judge,
    Text,
}

// A refusal: the reason, and where in the input it lies.
// The place counts bounds or lines from 1, and is 0 where there is nothing to count: it is the number
// that users are told, and no Option.
#[derive(Clone, Copy, PartialEq, Eq, Debug)]
pub struct Refusal {
    pub stop: Stop,
    pub place: u32,
}

// A number that no reason has.
#[derive(Clone, Copy, PartialEq, Eq, Debug)]
pub struct UnknownNumber(pub u32);

impl Stop {
    // The number by which users know this reason. No other reason has it, which a From could not say.
    pub fn number(self) -> u8
        ensures answer { result ≡ number self }
        ensures only { (other : Stop) → number other ≡ result → other ≡ self }
    {
        self as u8
    }

    // The part of the product that stops a call for this reason.
    pub fn layer(self) -> Layer
        ensures { result ≡ layer self }
    {
        match self {
            Stop::OffScale | Stop::BadScale => Layer::Scale,
            Stop::Undeclared
            | Stop::BoundCount
            | Stop::AlwaysMet
            | Stop::SettingsFull
            | Stop::RulesFull => Layer::Sheet,
            Stop::AreaTooSmall | Stop::NoSlotFree => Layer::Search,
            Stop::UnknownBlock
            | Stop::NotResolvable
            | Stop::NotEverything
            | Stop::NotAllowed
            | Stop::RecordFull
            | Stop::EndMissing => Layer::Judge,
            Stop::BadShape | Stop::OutOfDegrees | Stop::TextTooLong | Stop::AfterClosing => {
                Layer::Text
            }
        }
    }

    // The reason in words, for a person who reads an answer.
    pub fn reason(self) -> &'static str
        ensures { result.now ≡ reason self }
    {
        match self {
            Stop::OffScale => "value or position not on the scale",
            Stop::BadScale => "window end off its scale or ends reversed, or a bad grade list",
            Stop::Undeclared => "setting not declared",
            Stop::BoundCount => "no bound or over four",
            Stop::AlwaysMet => "rule met by every profile",
            Stop::BadShape => "line of wrong shape or without byte 10",
            Stop::OutOfDegrees => "quarter degrees out of range",
            Stop::TextTooLong => "text too long",
            Stop::UnknownBlock => "block unknown or slot empty",
            Stop::NotResolvable => "resolving not allowed",
            Stop::NotEverything => "e while the work block is not everything",
            Stop::SettingsFull => "twelve settings already",
            Stop::RulesFull => "forty-eight rules already",
            Stop::AreaTooSmall => "work area under 193 slots",
            Stop::NotAllowed => "line not allowed in this state",
            Stop::NoSlotFree => "no slot free",
            Stop::RecordFull => "record full",
            Stop::EndMissing => "record over without e",
            Stop::AfterClosing => "setting line after closing",
        }
    }
}

impl Layer {
    // The layer's name.
    pub fn name(self) -> &'static str
        ensures { result.now ≡ layer_name self }
    {
        match self {
            Layer::Scale => "scale",
            Layer::Sheet => "sheet",
            Layer::Search => "search",
            Layer::Judge => "judge",
            Layer::Text => "text",
        }
    }
}

impl Refusal {
    // A refusal with nothing to count. It is no From: a call says by the name that there is no place.
    pub fn of(stop: Stop) -> Refusal
        ensures { result ≡ no_place stop }
    {
        Refusal { stop, place: 0 }
    }

    // A refusal at a line, by the line's number from 1. The place stops at 99,999.
    pub fn at_line(stop: Stop, line: u64) -> Refusal
        ensures { result ≡ line_place stop line }
    {
        Refusal {
            stop,
            place: line.min(99_999) as u32,
        }
    }
}

// The reason that has a number. No derive gives it.
impl TryFrom<u32> for Stop {
    type Error = UnknownNumber;

    ghost try_from_gives = { Numbered };

    fn try_from(given: u32) -> Result<Stop, UnknownNumber> {
        match given {
            1 => Ok(Stop::OffScale),
            2 => Ok(Stop::BadScale),
            3 => Ok(Stop::Undeclared),
            4 => Ok(Stop::BoundCount),
            5 => Ok(Stop::AlwaysMet),
            6 => Ok(Stop::BadShape),
            7 => Ok(Stop::OutOfDegrees),
            8 => Ok(Stop::TextTooLong),
            9 => Ok(Stop::UnknownBlock),
            10 => Ok(Stop::NotResolvable),
            11 => Ok(Stop::NotEverything),
            20 => Ok(Stop::SettingsFull),
            21 => Ok(Stop::RulesFull),
            22 => Ok(Stop::AreaTooSmall),
            23 => Ok(Stop::NotAllowed),
            24 => Ok(Stop::NoSlotFree),
            25 => Ok(Stop::RecordFull),
            26 => Ok(Stop::EndMissing),
            27 => Ok(Stop::AfterClosing),
            _ => Err(UnknownNumber(given)),
        }
    }
}

// A reason is shown in words.
impl fmt::Display for Stop {
    ghost output = { λ s. Some (reason s) };

    ghost styled_output = { λ s spec. Some (padded spec (reason s)) };

    fn fmt<W: fmt::Write>(&self, f: &mut fmt::Formatter<W>) -> fmt::Result {
        f.pad(self.reason())
    }
}

// A layer is shown by its name.
impl fmt::Display for Layer {
    ghost output = { λ l. Some (layer_name l) };

    ghost styled_output = { λ l spec. Some (padded spec (layer_name l)) };

    fn fmt<W: fmt::Write>(&self, f: &mut fmt::Formatter<W>) -> fmt::Result {
        f.pad(self.name())
    }
}

// A refusal in full: its number, its layer, its place and its reason.
impl fmt::Display for Refusal {
    ghost output = { λ r. Some (refusal_text r) };

    fn fmt<W: fmt::Write>(&self, f: &mut fmt::Formatter<W>) -> fmt::Result {
        let stop = self.stop;
        let number = stop.number();
        let layer = stop.layer();
        let place = self.place;
        write!(
            f,
            "refused, number {number}, layer {layer}, place {place}: {stop}"
        )
    }
}

impl Error for Refusal {}

impl fmt::Display for UnknownNumber {
    ghost output = { λ e. Some (unknown_text e) };

    fn fmt<W: fmt::Write>(&self, f: &mut fmt::Formatter<W>) -> fmt::Result {
        write!(f, "no reason has the number {}", self.0)
    }
}

impl Error for UnknownNumber {}
