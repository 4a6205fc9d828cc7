/// Which checksums are checked: where a field is false, a wrong checksum of that protocol is
/// accepted.
#[derive(Clone, Copy, Debug, PartialEq, Eq)]
pub struct Checks {
    pub ip: bool,
    pub tcp: bool,
    pub udp: bool,
    pub icmp: bool,
}
