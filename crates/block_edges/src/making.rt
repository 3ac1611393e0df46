// Settings and blocks for the tests.
use blocks::block::Block;
use blocks::bound::Bound;
use blocks::lasts::Lasts;
use scales::refusal::Refusal;
use scales::whole::Whole;
use scales::window::Window;

// That a test asked for a block of no profile.
#[derive(Clone, Copy, Debug)]
pub(crate) struct NoBlock;

// So many settings, each with positions 0 to 63.
pub(crate) fn settings(count: u8) -> Result<Lasts, Refusal> {
    let scale = Window::new(Whole, 1, 64)?;
    let mut lasts = Lasts::new();
    for _ in 0..count {
        lasts.declare(&scale)?;
    }
    Ok(lasts)
}

// The profiles between two positions of a setting.
pub(crate) fn span(lasts: &Lasts, setting: u8, low: u32, high: u32) -> Result<Block, NoBlock> {
    between(&Block::everything(lasts), setting, low, high)
}

// Those of them that are in a block.
pub(crate) fn between(block: &Block, setting: u8, low: u32, high: u32) -> Result<Block, NoBlock> {
    let above = block.narrow(Bound::AtLeast(setting, low)).ok_or(NoBlock)?;
    above.narrow(Bound::AtMost(setting, high)).ok_or(NoBlock)
}
