//! Why a replay stops, and how it says so.
ghost use Rattle.std.specs.Prelude.{IfSome};
ghost use Rattle.moka_script.specs.Failure.{failure_text, status_of, IsWritten};

use crate::streams::Sink;
use moka_parts::error::OutOfMemory;
use std::alloc::{AllocError, AllocFailed};
use std::fmt::Display;
use std::io::ErrorKind;
use std::{fmt, io};

/// The status of a replay that was made, each reply with its memory.
pub const REPLAYED: u8 = 0;

/// The status if the script or the arguments are faulty.
pub const FAULTY: u8 = 2;

/// The status if memory, a read or a write was refused.
pub const REFUSED: u8 = 3;

/// Why a replay stopped before it printed anything.
#[derive(Clone, Copy)]
pub enum Failure {
    /// There are more arguments than one.
    Usage,
    /// The number of the first line that is faulty, from 1.
    BadLine(u64),
    /// The script could not be read.
    CannotRead,
    /// Memory was refused.
    OutOfMemory,
}

impl Failure {
    ghost use Rattle.std.specs.Prelude.{◌≡◌};
    ghost use Rattle.moka_script.specs.Failure.{status_of};

    /// The status that a replay ends with.
    fn status(self) -> u8
        ensures { result ≡ status_of self }
    {
        match self {
            Failure::Usage | Failure::BadLine(_) => FAULTY,
            Failure::CannotRead | Failure::OutOfMemory => REFUSED,
        }
    }
}

impl fmt::Display for Failure {
    ghost use Rattle.std.specs.Prelude.{Some};
    ghost use Rattle.moka_script.specs.Failure.{failure_text};

    ghost output = { λ failure. Some (failure_text failure) };

    fn fmt<W: fmt::Write>(&self, f: &mut fmt::Formatter<W>) -> fmt::Result {
        match self {
            Failure::Usage => f.write_str("usage: moka-replay [file]"),
            Failure::BadLine(number) => write!(f, "line {number}: bad script"),
            Failure::CannotRead => f.write_str("cannot read"),
            Failure::OutOfMemory => f.write_str("out of memory"),
        }
    }
}

impl From<io::Error> for Failure {
    ghost use Rattle.moka_script.specs.Failure.{IsReadFailure};

    ghost from_gives = { IsReadFailure };

    fn from(error: io::Error) -> Failure {
        match error.kind() {
            ErrorKind::OutOfMemory => Failure::OutOfMemory,
            _ => Failure::CannotRead,
        }
    }
}

impl From<OutOfMemory> for Failure {
    ghost use Rattle.std.specs.Prelude.{◌≡◌};
    ghost use Rattle.moka_script.specs.declared.failure.Failure.TheVariants.{OutOfMemory};

    ghost from_gives = { λ _ failure. failure ≡ OutOfMemory };

    fn from(_error: OutOfMemory) -> Failure {
        Failure::OutOfMemory
    }
}

impl From<AllocError> for Failure {
    ghost use Rattle.std.specs.Prelude.{◌≡◌};
    ghost use Rattle.moka_script.specs.declared.failure.Failure.TheVariants.{OutOfMemory};

    ghost from_gives = { λ _ failure. failure ≡ OutOfMemory };

    fn from(_error: AllocError) -> Failure {
        Failure::OutOfMemory
    }
}

impl<T: Drop> From<AllocFailed<T>> for Failure {
    ghost use Rattle.std.specs.Prelude.{◌≡◌};
    ghost use Rattle.moka_script.specs.declared.failure.Failure.TheVariants.{OutOfMemory};

    ghost from_gives = { λ _ failure. failure ≡ OutOfMemory };

    fn from(_error: AllocFailed<T>) -> Failure {
        Failure::OutOfMemory
    }
}

/// Writes a line, and answers the status; if the line is refused, that of a refusal.
pub fn write_with_status<S: Sink, D: Display + Drop>(sink: &mut S, line: D, status: u8) -> u8
    ensures { IfSome (D.output line) (λ text. IsWritten S.takes text status result sink.old sink.new) }
{
    match sink.write_line(line) {
        Ok(()) => status,
        Err(_) => REFUSED,
    }
}

/// Says why a replay stopped, in one line, and answers the status.
pub fn tell<E: Sink>(err: &mut E, failure: Failure) -> u8
    ensures { IsWritten E.takes (failure_text failure) (status_of failure) result err.old err.new }
{
    write_with_status(err, failure, failure.status())
}
