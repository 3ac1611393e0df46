ghost use Rattle.std.specs.Prelude.{◌≡◌};
ghost use Rattle.blocks.specs.declared.line.Line.{Line};
ghost use Rattle.record.specs.Digits.{front_byte, last_digit};
ghost use Rattle.record.specs.LineBytes.{line_bytes};

use blocks::line::Line;

// The last digit of a number. Digits are made one by one: what formats by `write!` can fail, and a line
// always has its bytes.
fn last_digit(n: u32) -> u8
    ensures { result ≡ last_digit n }
{
    b'0' + (n % 10) as u8
}

// The last digit of what is left of a number before its last columns, or a blank where nothing is
// left: so no zero is written before the number.
fn front_byte(left: u32) -> u8
    ensures { result ≡ front_byte left }
{
    if left == 0 { b' ' } else { last_digit(left) }
}

// The ten bytes of a line. No other line has them. It is no From: neither type is of this crate.
pub fn line_bytes(line: Line) -> [u8; 10]
    ensures written { result ≡ line_bytes line }
    ensures only { (other : Line) → line_bytes other ≡ result → other ≡ line }
{
    let block = line.block();
    let setting = line.setting();
    [
        line.letter(),
        front_byte(block / 10_000),
        front_byte(block / 1_000),
        front_byte(block / 100),
        front_byte(block / 10),
        last_digit(block),
        front_byte(setting / 100),
        front_byte(setting / 10),
        last_digit(setting),
        b'\n',
    ]
}
