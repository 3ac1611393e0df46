ghost use Rattle.std.specs.Prelude.{◌≡◌, ◌<◌, [], length, MatchResult};
ghost use Rattle.rows.specs.Items.{items, Pushed, Popped};

use crate::row::{Full, Row};

impl<T: Copy, const N: usize> Row<T, N> {
    // No item. The blank fills the room, and is never read.
    pub fn new(blank: T) -> Row<T, N>
        ensures { items result ≡ [] }
    {
        Row {
            room: [blank; N],
            len: 0,
        }
    }

    // The items of a slice, in its order; refused where there is no room for all.
    pub fn of(slice: &[T], blank: T) -> Result<Row<T, N>, Full>
        ensures { MatchResult result (λ row. items row ≡ slice.now) (λ _. N < length slice.now) }
    {
        let mut row = Row::new(blank);
        for item in slice {
            row.push(*item)?;
        }
        Ok(row)
    }

    // The items. In two steps, since the check covers a part of a slice and not one of an array whose
    // length is a parameter.
    pub fn as_slice(&self) -> &[T]
        ensures { result.now ≡ items self.now }
    {
        let room = &self.room[..];
        &room[..self.len]
    }

    // How many items there are.
    pub fn len(&self) -> usize
        ensures { result ≡ length (items self.now) }
    {
        self.as_slice().len()
    }

    // One item more, behind the others; refused where there is no room.
    pub fn push(&mut self, item: T) -> Result<(), Full>
        ensures { Pushed item self.old self.new result }
    {
        if self.len == N {
            return Err(Full);
        }
        self.room[self.len] = item;
        self.len += 1;
        Ok(())
    }

    // The last item is taken out; None where there is none.
    pub fn pop(&mut self) -> Option<T>
        ensures { Popped self.old self.new result }
    {
        let last = self.len.checked_sub(1)?;
        self.len = last;
        Some(self.room[last])
    }
}
