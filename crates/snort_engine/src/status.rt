//! How a run ended.
ghost use Rattle.std.specs.Prelude.{◌≡◌};
ghost use Rattle.snort_engine.specs.Status.{status_code};

/// How a run ended.
#[derive(Clone, Copy, Debug, PartialEq, Eq)]
pub enum Status {
    /// The work is done.
    Done,
    /// The words or a file of the configuration are refused.
    Refused,
    /// The capture is refused, or ends other than cleanly.
    BadCapture,
    /// The host failed, or lacks a file.
    HostFault,
    /// The alert sink failed.
    WriteFault,
    /// Memory ran out.
    NoMemory,
}

impl Status {
    /// The exit status of a process: 0 to 5, in the order of the names.
    pub fn code(self) -> u8
        ensures { result ≡ status_code self }
    {
        match self {
            Status::Done => 0,
            Status::Refused => 1,
            Status::BadCapture => 2,
            Status::HostFault => 3,
            Status::WriteFault => 4,
            Status::NoMemory => 5,
        }
    }
}
