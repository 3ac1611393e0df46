// The name of a setting: eight bytes, whatever they are.
#[derive(Clone, Copy, PartialEq, Eq, Debug)]
pub struct Name {
    pub bytes: [u8; 8],
}
