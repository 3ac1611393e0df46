ghost use Rattle.std.specs.Prelude.{◌≡◌};
ghost use Rattle.checker.specs.Table.{allows, letter_of};

use blocks::line::Line;

// What a judge is about, without what it holds: the rows of the table.
#[derive(Clone, Copy)]
pub enum Stage {
    Idle,
    Working,
    Ended,
}

// The letters of lines: the columns of the table.
#[derive(Clone, Copy)]
pub enum Letter {
    T,
    R,
    K,
    E,
}

// One row of the table: for each letter, whether its lines are allowed.
#[derive(Clone, Copy)]
struct Row {
    allowed: [bool; 4],
}

// Idle takes t; working takes r, k and e; ended takes none. The project wants the judge's table as a
// const array of rows, indexed by the numbers of stage and letter.
const TABLE: [Row; 3] = [
    Row {
        allowed: [true, false, false, false],
    },
    Row {
        allowed: [false, true, true, true],
    },
    Row {
        allowed: [false, false, false, false],
    },
];

// The letter of a line.
impl From<Line> for Letter {
    ghost from_gives = { λ line letter. letter ≡ letter_of line };

    fn from(line: Line) -> Letter {
        match line {
            Line::Take(_) => Letter::T,
            Line::Resolve(_, _) => Letter::R,
            Line::Keep(_) => Letter::K,
            Line::End => Letter::E,
        }
    }
}

// Whether lines of this letter are allowed at this stage.
pub fn allowed(stage: Stage, letter: Letter) -> bool
    ensures { result ≡ allows stage letter }
{
    TABLE[stage as usize].allowed[letter as usize]
}
