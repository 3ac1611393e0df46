ghost use Rattle.blocks.specs.Problems.{posed};
ghost use Rattle.series.specs.Accepting.{GroundsAccepted};

use blocks::problem::Problem;

// The grounds of each "none" are accepted by a judge with as many slots. The function does nothing;
// its contract is the law.
pub fn grounds_accepted(problem: &Problem<'_>, slots: usize)
    ensures { GroundsAccepted (posed problem.now) slots }
{}
