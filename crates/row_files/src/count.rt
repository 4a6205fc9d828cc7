//! How many rows gave what they must.
ghost use Rattle.std.specs.Prelude.{◌≡◌, ◌+◌, ◌-◌, ◌^◌, min, nat_lt, if◌then◌else◌};
ghost use Rattle.std.specs.Process.{exit_status};

use std::process::ExitCode;

/// How many calls or runs gave what they must, and how many did not. A count stops at its end.
#[derive(Clone, Copy, Debug)]
pub struct PassCount {
    pub passed: u32,
    pub differed: u32,
}

impl PassCount {
    /// Nothing was tried.
    pub fn new() -> PassCount
        ensures { result ≡ record { passed = 0; differed = 0 } }
    {
        PassCount {
            passed: 0,
            differed: 0,
        }
    }

    /// Counts one that gave what it must.
    pub fn pass(&mut self)
        ensures { self.new ≡ record self.old { passed = min (self.old.passed + 1) (2 ^ 32 - 1) } }
    {
        self.passed = self.passed.saturating_add(1);
    }

    /// Counts one that did not.
    pub fn differ(&mut self)
        ensures { self.new ≡ record self.old { differed = min (self.old.differed + 1) (2 ^ 32 - 1) } }
    {
        self.differed = self.differed.saturating_add(1);
    }

    /// The status of the program: 1 where one differed, else 0.
    pub fn status(&self) -> ExitCode
        ensures { exit_status result ≡ (if nat_lt 0 self.now.differed then 1 else 0) }
    {
        ExitCode::from(u8::from(self.differed > 0))
    }
}
