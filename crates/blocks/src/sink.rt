ghost use Rattle.std.specs.Prelude.{◌≡◌};
ghost use Rattle.blocks.specs.declared.line.Line.{Line};
ghost use Rattle.blocks.specs.Sinks.{Step, result_of, next_of};

use crate::line::Line;

// What takes the lines of the grounds.
//
// A sink means a state. For each state and line it takes the line, with the next state, or refuses
// it by a number and keeps its state. Any caller may write one, with reasons that are not of this
// product: so a refusal is a number and no enum.
//
// That the sink keeps what it was lent is said of each call, here and of all that pass a sink on: it
// compares two moments, and no field of a sink can.
pub trait Sink {
    // the states, the state of a sink, and what comes of a line in a state
    ghost Model: { Type 0 };

    ghost model: { Self → Model };

    ghost step: { Model → Line → Step Model };

    // what a sink holds that its user lent to it, and has back at the end
    ghost Lent: { Type 0 };

    ghost lent: { Self → Lent };

    fn take(&mut self, line: Line) -> Result<(), u32>
        ensures answer { result ≡ result_of (step (model self.old) line) }
        ensures state { model self.new ≡ next_of (model self.old) (step (model self.old) line) }
        ensures kept { lent self.new ≡ lent self.old };
}
