ghost use Rattle.blocks.specs.Problems.{posed};
ghost use Rattle.search.specs.Laws.{OneRun, AlwaysASlot, VerdictIsRight, TrailOfTheRules, FoundEnds};

use blocks::problem::Problem;

// What holds of every search. Each function does nothing; its contract is the law.

// Over any number of slots a problem has a run, and only one.
pub fn one_run(problem: &Problem<'_>, slots: usize)
    ensures { OneRun (posed problem.now) slots }
{}

// With 193 slots or more, a slot is always free.
pub fn always_a_slot(problem: &Problem<'_>, slots: usize)
    ensures { AlwaysASlot (posed problem.now) slots }
{}

// "None" is said exactly where every profile breaks some rule, and no profile of a region found breaks one.
pub fn verdict_is_right(problem: &Problem<'_>, slots: usize)
    ensures { VerdictIsRight (posed problem.now) slots }
{}

// The bounds on the trail are different bounds of the rules.
pub fn trail_of_the_rules(problem: &Problem<'_>, slots: usize)
    ensures { TrailOfTheRules (posed problem.now) slots }
{}

// The ends of a region found are the settings' own or those of bounds of the rules.
pub fn found_ends(problem: &Problem<'_>, slots: usize)
    ensures { FoundEnds (posed problem.now) slots }
{}
