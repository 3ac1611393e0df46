ghost use Rattle.record.specs.Examples.{WorkedLines};
ghost use Rattle.record.specs.Laws.{LinesStand, RecordStands, ReadingStands};

use blocks::sink::Sink;

// Lines and their bytes determine each other, and a piece up to byte 10 tells as much as ten bytes.
pub fn lines_stand()
    ensures { LinesStand }
{}

// A record holds the lines that it took, in order, and takes as many as fit.
pub fn record_stands()
    ensures { RecordStands }
{}

// A record is read into a sink in one way only, and what was written is read back, whatever the
// sink is.
pub fn reading_stands<K: Sink>()
    ensures { ReadingStands K.Sink.step }
{}

// Worked lines, and bytes that are no line's.
pub fn worked_lines()
    ensures { WorkedLines }
{}
