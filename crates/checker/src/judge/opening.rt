ghost use Rattle.std.specs.Prelude.{◌≡◌, List, length, replicate, None};
ghost use Rattle.blocks.specs.declared.line.Line.{Line};
ghost use Rattle.blocks.specs.Problems.{posed};
ghost use Rattle.blocks.specs.Sheets.{Proper};
ghost use Rattle.checker.specs.Courts.{court_of, opened};
ghost use Rattle.checker.specs.Findings.{JudgesRightly};

use crate::judge::Judge;
use crate::state::State;
use blocks::problem::Problem;
use blocks::slot::Slot;

// Marks every slot empty.
fn clear(area: &mut [Slot])
    ensures { area.new ≡ replicate (length area.old) None }
{
    area.fill(None);
}

impl<'a> Judge<'a> {
    // A judge over a problem, idle, with every slot of its work area empty.
    pub fn new(problem: Problem<'a>, area: &'a mut [Slot]) -> Judge<'a>
        ensures opened { court_of result ≡ opened (posed problem.entry) (length area.old) }
        ensures lent { result.area.ghost_name ≡ area.entry.ghost_name }
        ensures proper { Proper (posed problem.entry) }
        ensures rightly { (ls : List Line) → JudgesRightly (posed problem.entry) (length area.old) ls }
    {
        clear(area);
        Judge {
            problem,
            area,
            state: State::Idle,
            line: 1,
        }
    }
}
