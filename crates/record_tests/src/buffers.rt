use crate::write_two;
use blocks::line::Line;
use blocks::line::numbers::BlockNumber;
use blocks::sink::Sink;
use record::sink::Record;
use scales::refusal::{Refusal, Stop};

#[test]
fn a_record_takes_the_lines_that_fit(rt: HostRuntime) {
    let table = [
        (0, 0, b"........................"),
        (9, 0, b"........................"),
        (10, 10, b"t    3  0\n.............."),
        (19, 10, b"t    3  0\n.............."),
        (20, 20, b"t    3  0\ne    0  0\n...."),
        (24, 20, b"t    3  0\ne    0  0\n...."),
    ];
    for (size, len, bytes) in table {
        let mut room = [b'.'; 24];
        let written = write_two(
            &mut room[0..size],
            Line::Take(BlockNumber::stopping(3)),
            Line::End,
        );
        assert_eq!(rt; written, len, "{}", size);
        assert_eq!(rt; room, *bytes, "{}", size);
    }
}

#[test]
fn a_full_record_refuses_at_the_line_to_come(rt: HostRuntime) {
    let mut room = [b'.'; 19];
    let mut record = Record::new(&mut room);
    assert_eq!(rt; record.full(), None);
    assert_eq!(rt; record.take(Line::End), Ok(()));
    assert_eq!(rt; record.full(), Some(Refusal::at_line(Stop::RecordFull, 2)));
    assert_eq!(rt; record.take(Line::End), Err(25));
    assert_eq!(rt; record.len(), 10);
    assert_eq!(rt; record.written(), b"e    0  0\n".as_slice());
}
