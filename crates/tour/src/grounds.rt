// Grounds written by hand, line by line, for the conflict that the judge is opened on.
use std::fmt;

// A line of a record as its ten bytes, shown without byte 10, which ends the line.
#[derive(Clone, Copy)]
pub(crate) struct LineText<'a>(pub(crate) &'a [u8]);

impl fmt::Display for LineText<'_> {
    fn fmt<W: fmt::Write>(&self, f: &mut fmt::Formatter<W>) -> fmt::Result {
        for byte in self.0.iter().filter(|byte| **byte != b'\n') {
            let c = char::from(*byte);
            write!(f, "{c}")?;
        }
        Ok(())
    }
}

// Rule 0 and rule 1 leave no queue depth to a timeout under 8 s, and rule 2 no timeout over 5 s.
pub(crate) const RIGHT: [&'static [u8; 10]; 4] = [
    b"t    0  0\n",
    b"r    1  0\n",
    b"r    2  1\n",
    b"e    0  0\n",
];

// Line 2 names the timeout: but the two blocks have no queue depth in common.
pub(crate) const WRONG_SETTING: [&'static [u8; 10]; 4] = [
    b"t    0  0\n",
    b"r    1  1\n",
    b"r    2  1\n",
    b"e    0  0\n",
];

// Line 3 names rule 1 again: so the timeouts from 8 s are not ruled out.
pub(crate) const WRONG_RULE: [&'static [u8; 10]; 4] = [
    b"t    0  0\n",
    b"r    1  0\n",
    b"r    1  0\n",
    b"e    0  0\n",
];
