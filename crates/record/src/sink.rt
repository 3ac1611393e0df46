ghost use Rattle.std.specs.Prelude.{◌≤◌, length};

pub mod state;
mod write;

// A record: lines in a lent buffer, ten bytes each, from its front up to the end of the last line.
// The caller lends the place, since there is no heap.
#[derive(Drop)]
pub struct Record<'a> {
    buffer: &'a mut [u8],
    end: usize,
    ghost within: { end ≤ length buffer.now },
}
