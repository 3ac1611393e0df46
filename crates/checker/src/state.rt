ghost use Rattle.std.specs.Prelude.{◌≡◌};
ghost use Rattle.checker.specs.Courts.{stage, phase_of};

use crate::table::Stage;
use blocks::block::Block;

// What a judge is about. While it works it holds the work block.
#[derive(Clone, Copy)]
pub enum State {
    Idle,
    Working(Block),
    Ended,
}

// Its row of the table.
impl From<State> for Stage {
    ghost from_gives = { λ s row. row ≡ stage (phase_of s) };

    fn from(state: State) -> Stage {
        match state {
            State::Idle => Stage::Idle,
            State::Working(_) => Stage::Working,
            State::Ended => Stage::Ended,
        }
    }
}
