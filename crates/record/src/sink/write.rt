ghost use Rattle.std.specs.Prelude.{◌≡◌, ◌+◌, ◌≤◌, length};
ghost use Rattle.std.specs.Borrow.{GName};
ghost use Rattle.record.specs.Pages.{Page, page, page_of, put, writes};

use crate::bytes::line_bytes;
use crate::sink::Record;
use blocks::line::Line;
use blocks::sink::Sink;
use scales::refusal::Stop;

impl<'a> Record<'a> {
    // A record with no line yet, over a lent buffer.
    pub fn new(buffer: &'a mut [u8]) -> Record<'a>
        ensures lent { result.buffer.ghost_name ≡ buffer.entry.ghost_name }
        ensures empty { page_of result ≡ page buffer.old 0 }
    {
        Record { buffer, end: 0 }
    }
}

// Ten bytes into the buffer, and no others.
fn put_ten(buffer: &mut [u8], at: usize, bytes: &[u8; 10])
    requires { at + 10 ≤ length buffer.old }
    ensures { buffer.new ≡ put at bytes.now buffer.old }
{
    buffer[at..at + 10].copy_from_slice(bytes);
}

impl Sink for Record<'_> {
    ghost Model = { Page };

    ghost model = { page_of };

    ghost step = { writes };

    ghost Lent = { GName };

    ghost lent = { λ r. r.buffer.ghost_name };

    fn take(&mut self, line: Line) -> Result<(), u32> {
        if !self.has_room() {
            return Err(u32::from(Stop::RecordFull.number()));
        }
        let at = self.end;
        put_ten(self.buffer, at, &line_bytes(line));
        self.end = at + 10;
        Ok(())
    }
}
