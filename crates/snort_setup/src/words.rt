//! The words of a setup.

/// What the words of a command say of a setup.
#[derive(Clone, Copy, Debug)]
pub struct SetupWords<'a> {
    /// The name of the configuration.
    pub conf: &'a str,
    /// A variable that no line of the configuration gives another value: its name, and its value as it is.
    pub defined: Option<(&'a [u8], &'a [u8])>,
    /// The name of the host table, if there is one.
    pub host_table: Option<&'a str>,
    /// A rule outside the profile, or with a pattern that is refused, gives a warning and no rule.
    pub skip_refused: bool,
}
