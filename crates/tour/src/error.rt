use scales::refusal::Refusal;
use std::io;

// Why the tour cannot go on.
#[derive(Debug, Drop)]
pub(crate) enum TourError {
    Output(io::Error),
    Refused(Refusal),
}

impl From<io::Error> for TourError {
    fn from(e: io::Error) -> TourError {
        TourError::Output(e)
    }
}

impl From<Refusal> for TourError {
    fn from(e: Refusal) -> TourError {
        TourError::Refused(e)
    }
}
