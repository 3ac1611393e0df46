ghost use Rattle.std.specs.Prelude.{◌≡◌};
ghost use Rattle.search.specs.Tallies.{feed, fed};

use crate::verdict::FirstRefusal;
use blocks::line::Line;
use blocks::sink::Sink;

// The lines made so far, counted, and the sink's first refusal.
#[derive(Clone, Copy, Default)]
pub struct Tally {
    pub lines: u32,
    pub refused: Option<FirstRefusal>,
}

impl Tally {
    // One line more. It is sent unless the sink has refused one before.
    pub fn send<K: Sink>(&mut self, sink: &mut K, line: Line)
        ensures after { feed self.new (K.model sink.new) ≡ fed K.step (feed self.old (K.model sink.old)) line }
        ensures kept { K.lent sink.new ≡ K.lent sink.old }
    {
        self.lines = self.lines.saturating_add(1);
        if self.refused.is_none() {
            if let Err(number) = sink.take(line) {
                self.refused = Some(FirstRefusal {
                    number,
                    line: self.lines,
                });
            }
        }
    }
}
