use blocks::line::Line;
use blocks::line::numbers::{BlockNumber, SettingNumber};
use record::bytes::line_bytes;
use record::read::read_line;
use scales::refusal::{Refusal, Stop};
use std::process::Abort;

// The line is written so, and read back.
fn both_ways(rt: &impl Abort, line: Line, bytes: &[u8; 10]) {
    assert_eq!(rt; line_bytes(line), *bytes);
    assert_eq!(rt; read_line(bytes, 1), Ok(line));
}

fn resolve(block: usize, setting: usize) -> Line {
    Line::Resolve(
        BlockNumber::stopping(block),
        SettingNumber::stopping(setting),
    )
}

#[test]
fn each_kind_of_line_is_written_and_read_back(rt: HostRuntime) {
    both_ways(&rt, Line::Take(BlockNumber::stopping(0)), b"t    0  0\n");
    both_ways(&rt, Line::Take(BlockNumber::stopping(3)), b"t    3  0\n");
    both_ways(&rt, Line::Keep(BlockNumber::stopping(100)), b"k  100  0\n");
    both_ways(
        &rt,
        Line::Keep(BlockNumber::stopping(100_000)),
        b"k99999  0\n",
    );
    both_ways(&rt, resolve(2, 1), b"r    2  1\n");
    both_ways(&rt, resolve(12_345, 10), b"r12345 10\n");
    both_ways(&rt, resolve(99_999, 999), b"r99999999\n");
    both_ways(&rt, Line::End, b"e    0  0\n");
}

#[test]
fn damaged_lines_are_refused_at_their_number(rt: HostRuntime) {
    let table: [&[u8]; 16] = [
        b"",
        b"\n",
        b"t    3  0",
        b"t    3  0t",
        b"t    3  0\n\n",
        b"t   3  0\n",
        b"t    3   0\n",
        b"t00003  0\n",
        b"t   03  0\n",
        b"t   -3  0\n",
        b"t3      0\n",
        b"t    3  1\n",
        b"e    1  0\n",
        b"e        \n",
        b"x    3  0\n",
        b"T    3  0\n",
    ];
    for bytes in table {
        assert_eq!(rt;
            read_line(bytes, 7),
            Err(Refusal::at_line(Stop::BadShape, 7)),
            "{bytes:?}"
        );
    }
    assert_eq!(rt;
        read_line(b"?", 1_000_000),
        Err(Refusal::at_line(Stop::BadShape, 99_999))
    );
}
