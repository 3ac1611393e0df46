ghost use Rattle.std.specs.Prelude.{◌≡◌, ◌≤◌, length, ⊤};

use std::alloc::AllocError;

pub mod items;

// The items so far, in order: the first len of the room. What lies behind them is not read.
//
// No heap is taken. The library's ArrayVec is no Copy, which grades, rule sets and trails are, and asks
// its items for a default. No Model: that of a Copy type has to give all fields back.
pub struct Row<T, const N: usize> {
    room: [T; N],
    len: usize,
    ghost whole: { length room ≡ N },
    ghost few: { len ≤ N },
}

// A row is copied with what it holds. A derive does not cover a ghost field beside a parameter.
impl<T: Copy, const N: usize> Copy for Row<T, N> {}

impl<T: Copy, const N: usize> Clone for Row<T, N> {
    ghost is_clone = { λ row copy. copy ≡ row };

    ghost is_infallible = { λ _. ⊤ };

    fn clone(&self) -> Result<Row<T, N>, AllocError> {
        Ok(*self)
    }
}

// A row has no room for an item more.
#[derive(Clone, Copy, PartialEq, Eq, Debug)]
pub struct Full;
