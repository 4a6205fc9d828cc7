//! The two versions of IP.
ghost use Rattle.std.specs.Prelude.{◌≡◌};
ghost use Rattle.packet_decode.specs.Versions.{ether_type, first_digit, version_of, icmp_protocol};

use edge_io::Addr;

/// A version of the internet protocol.
#[derive(Clone, Copy, Debug, PartialEq, Eq)]
pub enum IpVersion {
    /// RFC 791.
    Four,
    /// RFC 8200.
    Six,
}

/// The number by which a link names the version.
pub(crate) fn ether_type(version: IpVersion) -> u16
    ensures { result ≡ ether_type version }
{
    match version {
        IpVersion::Four => 0x0800,
        IpVersion::Six => 0x86dd,
    }
}

/// The number in the first four bits of a packet.
pub(crate) fn first_digit(version: IpVersion) -> u8
    ensures { result ≡ first_digit version }
{
    match version {
        IpVersion::Four => 4,
        IpVersion::Six => 6,
    }
}

/// The version that an address belongs to.
pub(crate) fn version_of(addr: Addr) -> IpVersion
    ensures { result ≡ version_of addr }
{
    match addr {
        Addr::V4(_) => IpVersion::Four,
        Addr::V6(_) => IpVersion::Six,
    }
}

/// The protocol number of the version's own control messages.
pub(crate) fn icmp_protocol(version: IpVersion) -> u8
    ensures { result ≡ icmp_protocol version }
{
    match version {
        IpVersion::Four => 1,
        IpVersion::Six => 58,
    }
}
