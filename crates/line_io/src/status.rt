//! How a program that reads lines ends.

ghost use Rattle.std.specs.Prelude.{◌≡◌, ◌≤◌};
ghost use Rattle.line_io.specs.Status.{number_of};

/// How a program that reads lines ends, as its exit status reports.
#[derive(Clone, Copy, Debug, PartialEq, Eq)]
pub enum Status {
    /// Every line was processed.
    Done,
    /// A line was bad. The lines before it were processed.
    BadTrace,
    /// An allocation failed.
    NoMemory,
    /// The input couldn't be read to its end or is too long, or output couldn't be written.
    Fault,
}

impl Status {
    /// Returns the exit status, 0 to 3.
    pub fn number(self) -> u8
        ensures value { result ≡ number_of self }
        ensures bound { result ≤ 3 }
    {
        match self {
            Status::Done => 0,
            Status::BadTrace => 1,
            Status::NoMemory => 2,
            Status::Fault => 3,
        }
    }
}
