/// Why a record, or a datagram, is skipped.
#[derive(Clone, Copy, Debug, PartialEq, Eq)]
pub enum Skip {
    /// Captured bytes are missing: of the link header, of a tag, or of the IP datagram.
    Short,
    /// The link carries something other than the version of IP that is read.
    OtherProtocol,
    /// A checksum that is checked is wrong.
    Checksum,
    /// A header says what can't be: a version other than its link's, a length below its least one
    /// (of UDP, below 8) or past the datagram's end, or more than eight extension headers.
    Malformed,
}
