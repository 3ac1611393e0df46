use record::feed::{feed_line, feed_record};
use record::halt::{Cause, Halt};
use record::sink::Record;

#[test]
fn a_record_is_read_up_to_the_first_refused_line(rt: HostRuntime) {
    let shape = Cause::Shape;
    let full = Cause::Sink(25);
    let table: [(&[u8], Result<u64, Halt>, usize); 7] = [
        (b"", Ok(0), 0),
        (b"t    3  0\ne    0  0\n", Ok(2), 20),
        (b"t    3  0\ne    0  0", Err(Halt::at_line(shape, 2)), 10),
        (
            b"t    3  0\n\ne    0  0\n",
            Err(Halt::at_line(shape, 2)),
            10,
        ),
        (b"t   3  0\ne    0  0\n", Err(Halt::at_line(shape, 1)), 0),
        (b"t    3   0\ne    0  0\n", Err(Halt::at_line(shape, 1)), 0),
        (
            b"k  100  0\nt    1  0\ne    0  0\n",
            Err(Halt::at_line(full, 3)),
            20,
        ),
    ];
    for (bytes, answer, len) in table {
        let mut room = [b'.'; 24];
        let mut copy = Record::new(&mut room);
        assert_eq!(rt; feed_record(&mut copy, bytes), answer, "{bytes:?}");
        assert_eq!(rt; copy.len(), len, "{bytes:?}");
        assert_eq!(rt; copy.written(), &bytes[0..len], "{bytes:?}");
    }
}

#[test]
fn a_halt_has_its_number_and_its_line(rt: HostRuntime) {
    let mut none = [];
    let mut full = Record::new(&mut none);
    assert_eq!(rt;
        feed_line(&mut full, b"e    0  0\n", 100_000),
        Err(Halt::at_line(Cause::Sink(25), 99_999))
    );
    assert_eq!(rt; Cause::Sink(25).number(), 25);
    assert_eq!(rt; Cause::Shape.number(), 6);
}
