ghost use Rattle.std.specs.Prelude.{◌≡◌};
ghost use Rattle.record.specs.Halts.{cause_number, halt_at};

use scales::refusal::Stop;

// Why the reading of a record halts.
#[derive(Clone, Copy, PartialEq, Eq, Debug)]
pub enum Cause {
    // the bytes are no line's
    Shape,
    // the sink refused the line by this number
    Sink(u32),
}

// Why and where the reading of a record halts. Lines count from 1, and the number stops at 99,999.
#[derive(Clone, Copy, PartialEq, Eq, Debug)]
pub struct Halt {
    pub cause: Cause,
    pub line: u32,
}

impl Cause {
    // The number by which users know the cause.
    pub fn number(self) -> u32
        ensures { result ≡ cause_number self }
    {
        match self {
            Cause::Shape => u32::from(Stop::BadShape.number()),
            Cause::Sink(number) => number,
        }
    }
}

impl Halt {
    // A halt at the nth line. It stops as Refusal::at_line does; all that they share is one expression.
    pub fn at_line(cause: Cause, nth: u64) -> Halt
        ensures { result ≡ halt_at cause nth }
    {
        Halt {
            cause,
            line: nth.min(99_999) as u32,
        }
    }
}
