//! How a run of a program ended.

ghost use Rattle.std.specs.Prelude.{◌≡◌};
ghost use Rattle.wt_env.specs.Status.{code_of};

use std::fmt;

/// How a run of a program ended.
#[derive(Clone, Copy, Debug, PartialEq, Eq)]
pub enum Status {
    /// The run did all that it was asked.
    Done,
    /// The words of the command line aren't a command.
    Usage,
    /// The input couldn't be read.
    ReadFault,
    /// The output couldn't be written.
    WriteFault,
    /// The input has more than 2^24 bytes.
    TooLong,
    /// The input is no JSON.
    NotJson,
    /// The element with this number, from 1, isn't a command; or with 0, the input is no list.
    BadCommand(u64),
    /// Memory ran out.
    OutOfMemory,
}

impl Status {
    /// The status as a process ends with it.
    pub fn code(&self) -> u8
        ensures { result ≡ code_of self.now }
    {
        match self {
            Status::Done => 0,
            Status::Usage => 2,
            Status::ReadFault => 3,
            Status::WriteFault => 4,
            Status::TooLong => 5,
            Status::NotJson => 6,
            Status::BadCommand(_) => 7,
            Status::OutOfMemory => 8,
        }
    }
}

impl fmt::Display for Status {
    fn fmt<W: fmt::Write>(&self, f: &mut fmt::Formatter<W>) -> fmt::Result {
        match self {
            Status::Done => write!(f, "Done"),
            Status::Usage => write!(f, "Usage"),
            Status::ReadFault => write!(f, "ReadFault"),
            Status::WriteFault => write!(f, "WriteFault"),
            Status::TooLong => write!(f, "TooLong"),
            Status::NotJson => write!(f, "NotJson"),
            Status::BadCommand(place) => write!(f, "BadCommand at {place}"),
            Status::OutOfMemory => write!(f, "OutOfMemory"),
        }
    }
}

#[cfg(test)]
mod tests {
    use super::*;
    use std::test::Fail;

    /// Each status with its code and its text, as the README lists them.
    const ROWS: [(Status, u8, &str); 9] = [
        (Status::Done, 0, "Done"),
        (Status::Usage, 2, "Usage"),
        (Status::ReadFault, 3, "ReadFault"),
        (Status::WriteFault, 4, "WriteFault"),
        (Status::TooLong, 5, "TooLong"),
        (Status::NotJson, 6, "NotJson"),
        (Status::BadCommand(0), 7, "BadCommand at 0"),
        (Status::BadCommand(12), 7, "BadCommand at 12"),
        (Status::OutOfMemory, 8, "OutOfMemory"),
    ];

    #[test]
    fn tells_each_code_and_text(rt: HostRuntime) -> Result<(), Fail> {
        for (status, code, text) in ROWS {
            let told = format!(in rt.alloc(); "{status}")?;
            assert_eq!(rt; status.code(), code, "at {text}");
            assert_eq!(rt; told.as_str(), text);
        }
        Ok(())
    }
}
