//! How a run of the program ended.
ghost use Rattle.std.specs.Prelude.{◌≡◌, ◌≢◌};
ghost use Rattle.std.specs.Io.KnownBytes.{Appends};

use std::io::Write;

/// How a run ended.
#[derive(Clone, Copy, Debug, PartialEq, Eq)]
pub enum Status {
    /// The input ended, and each of its lines was answered.
    Ended,
    /// There was no memory for the arguments or for the buffers.
    NoMemory,
    /// The argument is no limit.
    BadLimit,
    /// The input or the output failed.
    Failed,
}

impl Status {
    ghost use Rattle.range_track_answers.specs.Limit.{code_of};

    /// The number that the program ends with.
    pub fn code(&self) -> u8
        ensures { result ≡ code_of self.now }
    {
        match self {
            Status::Ended => 0,
            Status::NoMemory => 1,
            Status::BadLimit => 2,
            Status::Failed => 5,
        }
    }

    /// This status, once the line that says so is written. Where that fails, whatever the kind of
    /// its error, it is `Failed`.
    pub fn write_line<W: Write>(self, out: &mut W, line: &[u8]) -> Status
        ensures { result ≢ Status.Failed → (result ≡ self) ×
            Appends (W.contents out.old) (W.contents out.new) line.now }
    {
        match out.write_all(line) {
            Ok(()) => self,
            Err(_) => Status::Failed,
        }
    }
}
