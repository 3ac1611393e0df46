ghost use Rattle.scales.specs.Examples.{WorkedPositions};

// The worked positions of readings and of a window, by the definitions that the contracts cite.
pub fn worked_positions()
    ensures { WorkedPositions }
{}
