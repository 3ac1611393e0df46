ghost use Rattle.blocks.specs.Examples.{WorkedBlocks};

// The worked rules and blocks, by the definitions that the contracts cite.
pub fn worked_blocks()
    ensures { WorkedBlocks }
{}
