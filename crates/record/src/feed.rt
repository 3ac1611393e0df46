ghost use Rattle.std.specs.Prelude.{◌≡◌};
ghost use Rattle.record.specs.Halts.{Fed};
ghost use Rattle.record.specs.Readings.{Reads};

use crate::halt::{Cause, Halt};
use crate::read::said;
use blocks::sink::Sink;

// The bytes of one line, the nth of a record, into a sink.
pub fn feed_line<K: Sink>(sink: &mut K, bytes: &[u8], nth: u64) -> Result<(), Halt>
    ensures fed { Fed K.Sink.step (K.Sink.model sink.old) nth bytes.now result (K.Sink.model sink.new) }
    ensures kept { K.Sink.lent sink.new ≡ K.Sink.lent sink.old }
{
    let line = said(bytes).ok_or(Halt::at_line(Cause::Shape, nth))?;
    sink.take(line)
        .map_err(|number| Halt::at_line(Cause::Sink(number), nth))
}

// A whole record into a sink, line by line, up to the first line that is refused. Answers how many
// lines were taken. A line has ten bytes, so where the next ten are no line's, the bytes up to the
// next byte 10 are none either.
pub fn feed_record<K: Sink>(sink: &mut K, bytes: &[u8]) -> Result<u64, Halt>
    ensures read { Reads K.Sink.step (K.Sink.model sink.old) bytes.now result (K.Sink.model sink.new) }
    ensures kept { K.Sink.lent sink.new ≡ K.Sink.lent sink.old }
{
    for (before, line) in bytes.chunks(10).enumerate() {
        feed_line(sink, line, before as u64 + 1)?;
    }
    // each piece was a line, of ten bytes
    Ok(bytes.len() as u64 / 10)
}
