// Why not all of the output is written.
use std::{fmt, io};

#[derive(Drop)]
pub(crate) enum Failure {
    Unread(io::Error),
    TooLong,
    Unanswered(io::Error),
    Unshown(io::Error),
}

impl fmt::Display for Failure {
    fn fmt<W: fmt::Write>(&self, f: &mut fmt::Formatter<W>) -> fmt::Result {
        match self {
            Failure::Unread(error) => write!(f, "replay: standard input cannot be read: {error}"),
            Failure::TooLong => write!(f, "replay: the input has more than 262144 bytes"),
            Failure::Unanswered(error) => {
                writeln!(f, "replay: standard output cannot be written: {error}")?;
                write!(f, "replay: not all lines are answered")
            }
            Failure::Unshown(error) => {
                writeln!(f, "replay: standard output cannot be written: {error}")?;
                write!(f, "replay: not all cells are written")
            }
        }
    }
}
