ghost use Rattle.std.specs.Prelude.{List};
ghost use Rattle.scales.specs.Checks.{Check, OneOutcome};

// A call's checks, in the order in which they refuse.
pub trait Checks {
    ghost checks: { Self → List Check };
}

// Whatever a call's checks are, exactly one outcome fits them: every check holds, or the first
// that fails gives the one refusal.
pub fn one_outcome<C: Checks>()
    ensures { (c : C) → OneOutcome (C.Checks.checks c) }
{}
