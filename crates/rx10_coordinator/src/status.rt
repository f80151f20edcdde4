// What became of a session.

/// What became of a session, or of another command.
#[derive(Clone, Copy)]
pub enum Status {
    /// The input has ended, and each line of it was answered.
    Done,
    /// The words of the command are none.
    Usage,
    /// The input failed.
    ReadFault,
    /// The output failed. What it has taken are the first replies.
    WriteFault,
    /// Memory ran out outside a request.
    NoMemory,
    /// A write to the log failed. The replies to all that stands in it are told.
    LogFault,
    /// There is no file for the log. Nothing was read or written.
    NoLog,
}

impl Status {
    /// The status that the program ends with. Up to 8 they are those of rx10, and the others are none of its.
    pub(crate) fn exit(self) -> u8 {
        match self {
            Status::Done => 0,
            Status::Usage => 2,
            Status::ReadFault => 6,
            Status::WriteFault => 7,
            Status::NoMemory => 8,
            Status::LogFault => 11,
            Status::NoLog => 12,
        }
    }

    /// Writes its line to standard error; `Done` has none, and `NoLog` was told with its cause. Where that fails, nothing more can be said.
    pub(crate) fn tell<R: Eprint>(self, rt: &R) {
        let line = match self {
            Status::Done => return,
            Status::Usage => {
                "usage: rx10-coordinator [--places N] [--log FILE], with N from 1 to 16"
            }
            Status::ReadFault => "read fault",
            Status::WriteFault => "write fault",
            Status::NoMemory => "no memory",
            Status::LogFault => "log fault",
            Status::NoLog => return,
        };
        let _ = eprintln!(rt; "{line}");
    }
}
