ghost use Rattle.std.specs.Prelude.{◌≡◌, take};
ghost use Rattle.record.specs.Pages.{page_of, has_room, full as full_at};

use crate::sink::Record;
use scales::refusal::{Refusal, Stop};

// What a record tells of itself.
impl Record<'_> {
    // How many bytes are written.
    pub fn len(&self) -> usize
        ensures { result ≡ (page_of self.now).written }
    {
        self.end
    }

    // The bytes that are written.
    pub fn written(&self) -> &[u8]
        ensures { result.now ≡ take (page_of self.now).written (page_of self.now).bytes }
    {
        &self.buffer[..self.end]
    }

    // Whether ten bytes are free.
    pub(crate) fn has_room(&self) -> bool
        ensures { result ≡ has_room (page_of self.now) }
    {
        self.buffer.len() - self.end >= 10
    }

    // The refusal of the line to come, at its number; none while ten bytes are free.
    pub fn full(&self) -> Option<Refusal>
        ensures { result ≡ full_at (page_of self.now) }
    {
        let next = self.len() as u64 / 10 + 1;
        (!self.has_room()).then_some(Refusal::at_line(Stop::RecordFull, next))
    }
}
