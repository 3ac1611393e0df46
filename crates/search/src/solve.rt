ghost use Rattle.std.specs.Prelude.{◌≡◌, ◌≤◌, length};
ghost use Rattle.blocks.specs.Problems.{posed};
ghost use Rattle.search.specs.Moves.{verdict_at};
ghost use Rattle.search.specs.Solve.{Ran, Solved};
ghost use Rattle.search.specs.Tallies.{feed, untold};

use crate::course::Course;
use crate::moves::{Ended, Search};
use crate::tally::Tally;
use crate::trail::Trail;
use crate::verdict::Verdict;
use blocks::block::Block;
use blocks::problem::Problem;
use blocks::sink::Sink;
use blocks::slot::Slot;
use scales::refusal::{Refusal, Stop};

// Searches from a cold start, step by step, to the end. All slots of the area are used.
fn run<K: Sink>(problem: &Problem<'_>, area: &mut [Slot], sink: &mut K) -> (Ended, Tally)
    requires { length area.old ≤ 4096 }
    ensures ran { Ran K.step (posed problem.now) area.old area.new (feed untold (K.model sink.old)) (feed result.1 (K.model sink.new)) (verdict_at result.0) }
    ensures kept { K.lent sink.new ≡ K.lent sink.old }
{
    let mut search = Search {
        problem: *problem,
        area,
        course: Course {
            trail: Trail::new(),
            region: Block::everything(problem.lasts()),
            filled: 0,
            next: 0,
        },
        tally: Tally::default(),
        sink,
    };
    loop {
        if let Some(ended) = search.step() {
            return (ended, search.tally);
        }
    }
}

// Searches for a profile that meets every rule. The search uses the first 4,096 slots of the area at
// most, counts all as empty at the start, and sends its lines to the sink as it makes them.
pub fn solve<K: Sink>(
    problem: &Problem<'_>,
    area: &mut [Slot],
    sink: &mut K,
) -> Result<Verdict, Refusal>
    ensures solved { Solved K.step (posed problem.now) area.old area.new (K.model sink.old) (K.model sink.new) result }
    ensures kept { K.lent sink.new ≡ K.lent sink.old }
{
    if area.len() < 193 {
        return Err(Refusal::of(Stop::AreaTooSmall));
    }
    let used = area.len().min(4096);
    let (ended, tally) = run(problem, &mut area[0..used], sink);
    let found = match ended {
        Ended::Found(region) => Some(region),
        Ended::Nothing => None,
        Ended::Full => return Err(Refusal::of(Stop::NoSlotFree)),
    };
    Ok(Verdict {
        found,
        lines: tally.lines,
        refused: tally.refused,
    })
}
