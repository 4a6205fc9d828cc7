/// The link layer under a capture's packets: how each record begins.
///
/// The numbers are those of the libpcap savefile format: 1, 101 and 113.
#[derive(Clone, Copy, Debug, PartialEq, Eq)]
pub enum Link {
    /// Ethernet II (1): a header of 14 bytes.
    Ethernet,
    /// Raw IP (101): no header.
    RawIp,
    /// Linux cooked capture (113): a header of 16 bytes.
    Cooked,
}
