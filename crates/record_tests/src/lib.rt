// Tests of the record at its edges.
//
// Each test is a table, worked out by hand. The functions here are what a caller of a record writes:
// behind a call that knows nothing of records, it still knows every byte of the buffer that it lent.
#![tactic(auto)]

ghost use Rattle.std.specs.Prelude.{◌≡◌, [], ◌∷◌};
ghost use Rattle.blocks.specs.Sinks.{state_after};
ghost use Rattle.record.specs.Pages.{page, writes};

use blocks::line::Line;
use blocks::sink::Sink;
use record::sink::Record;

#[cfg(test)]
mod buffers;
#[cfg(test)]
mod lines;
#[cfg(test)]
mod readings;

// Two lines into any sink, as far as it takes them.
pub fn send_two<K: Sink>(sink: &mut K, first: Line, second: Line)
    ensures state { K.Sink.model sink.new ≡ state_after K.Sink.step (K.Sink.model sink.old) (first ∷ second ∷ []) }
    ensures kept { K.Sink.lent sink.new ≡ K.Sink.lent sink.old }
{
    let _ = sink.take(first);
    let _ = sink.take(second);
}

// Two lines into a record over the buffer. Answers how many bytes are written.
pub fn write_two(buffer: &mut [u8], first: Line, second: Line) -> usize
    ensures bytes { buffer.new ≡ (state_after writes (page buffer.old 0) (first ∷ second ∷ [])).bytes }
    ensures written { result ≡ (state_after writes (page buffer.old 0) (first ∷ second ∷ [])).written }
{
    let mut record = Record::new(buffer);
    send_two(&mut record, first, second);
    record.len()
}
