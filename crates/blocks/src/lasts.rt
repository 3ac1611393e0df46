ghost use Rattle.std.specs.Prelude.{◌≡◌, ℕ, ◌≤◌, length, slice_index};

pub mod declare;
pub mod holds;

// The last position of each declared setting, in order. One that is not declared has 0.
//
// All twelve have a last, and so they are an array and not a row: a block is made and looked at over
// all twelve.
#[derive(Clone, Copy)]
pub struct Lasts {
    pub(crate) last: [u32; 12],
    pub(crate) count: usize,
    ghost sized: { length last ≡ 12 },
    ghost few: { count ≤ 12 },
    ghost small: { (i : ℕ) → slice_index last i ≤ 4294967294 },
    ghost beyond: { (i : ℕ) → count ≤ i → slice_index last i ≡ 0 },
}
