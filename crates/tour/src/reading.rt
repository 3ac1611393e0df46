// A record that the search wrote, as text and before a judge.
use crate::card::Scales;
use crate::grounds::LineText;
use blocks::slot::Slot;
use sheet::sheet::Sheet;
use std::{fmt, io};

// The lines of a record, ten bytes each, set in and each behind a line break of its own.
#[derive(Clone, Copy)]
struct RecordText<'a>(&'a [u8]);

impl fmt::Display for RecordText<'_> {
    fn fmt<W: fmt::Write>(&self, f: &mut fmt::Formatter<W>) -> fmt::Result {
        for line in self.0.chunks(10) {
            let text = LineText(line);
            write!(f, "\n  {text}")?;
        }
        Ok(())
    }
}

// Shows the record of a search that found nothing and made this many lines.
pub(crate) fn show_grounds(rt: &impl Print, lines: u32, record: &[u8]) -> io::Result<()> {
    let text = RecordText(record);
    println!(rt; "\nThe search finds none. Its grounds have {lines} lines:{text}")
}

// Shows what the sheet's judge finds in the record.
pub(crate) fn show_reading(
    rt: &impl Print,
    sheet: &Sheet<Scales>,
    record: &[u8],
    area: &mut [Slot],
) -> io::Result<()> {
    match sheet.judge(record, area) {
        Ok(()) => println!(rt; "The judge accepts them: no profile meets these rules"),
        Err(refusal) => println!(rt; "The judge finds: {refusal}"),
    }
}
