// One value for each setting.
#[derive(Clone, Copy)]
pub(crate) struct Choice {
    pub(crate) depth: i32,
    pub(crate) timeout: i32,
    pub(crate) temperature: f32,
    pub(crate) grade: u8,
}

// The profile that the buyer would like.
pub(crate) const CANDIDATE: Choice = Choice {
    depth: 24,
    timeout: 25,
    temperature: 70.5,
    grade: b'M',
};
