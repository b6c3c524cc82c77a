// Why a line has no answer of a call: it is not one, or reading or writing fails.
use fields::Unreadable;
use std::io;

#[derive(Debug, Drop)]
pub enum LineError {
    Unreadable,
    Io(io::Error),
}

impl From<Unreadable> for LineError {
    fn from(_none: Unreadable) -> LineError {
        LineError::Unreadable
    }
}

impl From<io::Error> for LineError {
    fn from(error: io::Error) -> LineError {
        LineError::Io(error)
    }
}
