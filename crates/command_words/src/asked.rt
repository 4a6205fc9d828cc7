//! What the words of a command ask for.

/// The checksums that are verified, the value of `-k` (Snort Users Manual 2.9, section 1.6).
#[derive(Clone, Copy, Debug, PartialEq, Eq)]
pub enum ChecksumMode {
    /// `all`: every checksum.
    All,
    /// `none`: no checksum.
    Nothing,
    /// `noip`: all but those of IP headers.
    NoIp,
    /// `notcp`: all but those of TCP.
    NoTcp,
    /// `noudp`: all but those of UDP.
    NoUdp,
    /// `noicmp`: all but those of ICMP.
    NoIcmp,
}

/// The form in which alerts are written.
#[derive(Clone, Copy, Debug, PartialEq, Eq)]
pub enum AlertForm {
    /// A line each.
    Lines,
    /// `--unified2`: two Unified2 records each, the event and its packet.
    Unified2,
}

/// A variable that the command line defines: `-S name=value`.
#[derive(Clone, Copy, Debug)]
pub struct Definition<'a> {
    /// A letter or `_`, and then letters, digits and `_`.
    pub name: &'a [u8],
    /// At least one byte.
    pub value: &'a [u8],
}

/// A run that the words ask for. The texts are lent from the words.
#[derive(Clone, Copy, Debug)]
pub struct Words<'a> {
    /// `-c`: the name of the configuration.
    pub conf: &'a str,
    /// `-r`: the name of the capture.
    pub capture: Option<&'a str>,
    /// `-k`: the checksums that are verified, in place of the configuration's.
    pub checks: Option<ChecksumMode>,
    /// `-n`: the number of records after which the capture ends, from 1 to 4294967295.
    pub limit: Option<u32>,
    /// `-S`: a variable that is defined before the configuration is read.
    pub defined: Option<Definition<'a>>,
    /// `--host-table`: the name of the table of hosts.
    pub host_table: Option<&'a str>,
    /// `--lanes`: the number of lanes, from 1 to 64; 1 where nothing is said.
    pub lanes: u32,
    /// `--flush-point`: the bytes of a stream item, from 1 to 65536; 1024 where nothing is said.
    pub flush_point: u32,
    /// `--generate`: the number of records of a capture that is made up, from 1 to 100000.
    pub generate: Option<u32>,
    /// `--seed`: what the capture is made from, from 0 to 2147483647; 1 where nothing is said.
    pub seed: u32,
    /// `-q`: no warnings are written.
    pub quiet: bool,
    /// `-T`: configuration, rules and host table are read, and nothing else is done.
    pub test: bool,
    /// `--skip-refused`: a rule that is outside the profile is skipped.
    pub skip_refused: bool,
    /// `--stats`, or `--generate`: the counts of the run are written.
    pub stats: bool,
    /// `--unified2`, or lines where nothing is said: the form of alerts.
    pub form: AlertForm,
}

/// What the words of a command ask for.
#[derive(Clone, Copy, Debug)]
pub enum Command<'a> {
    /// `--help`: the usage is shown.
    Help,
    /// `-V`: the version is shown.
    Version,
    /// `--read-unified2`: the records of the Unified2 file of this name are shown.
    ReadUnified2(&'a str),
    /// A run, or with `-T` the test of its configuration.
    Run(Words<'a>),
}
