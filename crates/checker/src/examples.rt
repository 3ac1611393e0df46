ghost use Rattle.checker.specs.Examples.{WorkedGrounds};

// The worked grounds, by the definitions that the contracts cite.
pub fn worked_grounds()
    ensures { WorkedGrounds }
{}
