ghost use Rattle.std.specs.Prelude.{◌≡◌};
ghost use Rattle.blocks.specs.Lines.{letter, block_column, setting_column};

use crate::line::numbers::{BlockNumber, SettingNumber};

pub mod numbers;

// One line of the grounds for a "none".
#[derive(Clone, Copy, PartialEq, Eq, Debug)]
pub enum Line {
    // t: the block of this number becomes the work block
    Take(BlockNumber),
    // r: the block of this number is resolved into the work block on this setting
    Resolve(BlockNumber, SettingNumber),
    // k: the work block is kept as the block of this number
    Keep(BlockNumber),
    // e: the work block is everything, and the grounds end
    End,
}

impl Line {
    // The letter by which the line is written.
    pub fn letter(self) -> u8
        ensures { result ≡ letter self }
    {
        match self {
            Line::Take(_) => b't',
            Line::Resolve(_, _) => b'r',
            Line::Keep(_) => b'k',
            Line::End => b'e',
        }
    }

    // The number in the line's block columns; 0 where the line has no block.
    pub fn block(self) -> u32
        ensures { result ≡ block_column self }
    {
        match self {
            Line::Take(block) | Line::Resolve(block, _) | Line::Keep(block) => block.number(),
            Line::End => 0,
        }
    }

    // The number in the line's setting columns; 0 where the line has no setting.
    pub fn setting(self) -> u32
        ensures { result ≡ setting_column self }
    {
        match self {
            Line::Resolve(_, setting) => setting.number(),
            _ => 0,
        }
    }
}
