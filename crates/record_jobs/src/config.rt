//! What jobs are made by.
use conf_types::Config;
use host_table::Hosts;
use packet_decode::Checks;

/// What the records of a capture are made into jobs by.
#[derive(Clone, Copy)]
pub struct FrontConfig<'a> {
    /// The checksums that are verified, whatever the configuration says of them.
    pub checks: Checks,
    /// What is known of hosts.
    pub hosts: &'a Hosts,
    /// How fragments and streams are put together.
    pub config: &'a Config,
}
