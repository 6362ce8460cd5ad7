// Why a session ends before its input does.
use std::{fmt, io};

#[derive(Drop)]
pub(crate) enum Failure {
    Unread(io::Error),
    Unwritten(io::Error),
    Damaged,
}

impl fmt::Display for Failure {
    fn fmt<W: fmt::Write>(&self, f: &mut fmt::Formatter<W>) -> fmt::Result {
        match self {
            Failure::Unread(error) => write!(f, "standard input cannot be read: {error}"),
            Failure::Unwritten(error) => write!(f, "standard output cannot be written: {error}"),
            Failure::Damaged => write!(f, "the machine's words are damaged"),
        }
    }
}
