ghost use Rattle.std.specs.Prelude.{◌≡◌, ◌≤◌, Some, Ok, MatchOption, ◌≢◌};
ghost use Rattle.scales.specs.Checks.{Outcome};
ghost use Rattle.blocks.specs.declared.line.Line.{Line};
ghost use Rattle.blocks.specs.Lines.{letter, block_column, setting_column};
ghost use Rattle.record.specs.Digits.{worth};
ghost use Rattle.record.specs.LineBytes.{line_bytes, Says, shape_checks};

use crate::bytes::line_bytes;
use blocks::line::Line;
use blocks::line::numbers::{BlockNumber, SettingNumber};
use scales::refusal::{Refusal, Stop};

// What a byte is worth as a digit. A blank, as any other byte, is worth nothing.
fn digit_worth(byte: u8) -> u32
    ensures value { result ≡ worth byte }
    ensures small { result ≤ 9 }
{
    char::from(byte).to_digit(10).unwrap_or(0)
}

// The line of this letter with these numbers in its columns, where there is one. Columns that the
// line does not use are not looked at.
fn line_of(initial: u8, block: u32, setting: u32) -> Option<Line>
    ensures { (l : Line) → letter l ≡ initial → block_column l ≡ block → setting_column l ≡ setting → result ≡ Some l }
{
    let block = BlockNumber::new(block)?;
    let setting = SettingNumber::new(setting)?;
    match initial {
        b't' => Some(Line::Take(block)),
        b'r' => Some(Line::Resolve(block, setting)),
        b'k' => Some(Line::Keep(block)),
        b'e' => Some(Line::End),
        _ => None,
    }
}

// The line, where these are its bytes: so a zero or a minus before a number, or a number in columns
// that go unused, is not taken.
fn if_written(line: Line, bytes: &[u8]) -> Option<Line>
    ensures { MatchOption result (bytes.now ≢ line_bytes line) (λ l. (l ≡ line) × (bytes.now ≡ line_bytes l)) }
{
    (bytes == line_bytes(line).as_slice()).then_some(line)
}

// The line that the letter and the digits tell. Where these are a line's bytes, it is that line.
fn guessed(bytes: &[u8]) -> Option<Line>
    ensures { (l : Line) → bytes.now ≡ line_bytes l → result ≡ Some l }
{
    let &[initial, b5, b4, b3, b2, b1, s3, s2, s1, _] = bytes else {
        return None;
    };
    let block = digit_worth(b5) * 10_000
        + digit_worth(b4) * 1_000
        + digit_worth(b3) * 100
        + digit_worth(b2) * 10
        + digit_worth(b1);
    let setting = digit_worth(s3) * 100 + digit_worth(s2) * 10 + digit_worth(s1);
    line_of(initial, block, setting)
}

// What the bytes say: the guess, where it is written just so.
pub(crate) fn said(bytes: &[u8]) -> Option<Line>
    ensures { Says bytes.now result }
{
    let line = guessed(bytes)?;
    if_written(line, bytes)
}

// The line whose ten bytes these are, as the nth line of a record. Anything else is refused there.
pub fn read_line(bytes: &[u8], nth: u64) -> Result<Line, Refusal>
    ensures outcome { Outcome (shape_checks nth bytes.now) (λ l. bytes.now ≡ line_bytes l) result }
    ensures back { (l : Line) → bytes.now ≡ line_bytes l → result ≡ Ok l }
{
    said(bytes).ok_or(Refusal::at_line(Stop::BadShape, nth))
}
