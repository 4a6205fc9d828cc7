//! The headers of the frames that a made capture has.
ghost use Rattle.std.specs.Prelude.{◌≡◌, ◌+◌, ◌*◌, ◌<◌, ◌≤◌, ◌^◌, ◌%◌, length, IfOk};
ghost use Rattle.edge_io.specs.Bytes.{word_sum};
ghost use Rattle.pcap_input.specs.Frames.{checksum, ip_fields, ip_header, pseudo_header, tcp_fields, tcp_sum, tcp_header, udp_header, frame, tcp_frame, udp_frame};

use byteorder::{BigEndian, ByteOrder};
use std::alloc::{AllocError, Global};

/// The bytes of an Ethernet header, of an IPv4 header and of a TCP header, each without options.
const ETHERNET: usize = 14;

const IP: usize = 20;

const TCP: usize = 20;

/// The Ethernet header: destination, source and the type of IPv4.
const ETHERNET_HEADER: &[u8; ETHERNET] = b"\x02\0\0\0\0\x02\x02\0\0\0\0\x01\x08\0";

/// The numbers of the protocols.
const TCP_PROTOCOL: u8 = 6;

const UDP_PROTOCOL: u8 = 17;

/// One end of a packet: the address 10.net.0.host and a port.
#[derive(Clone, Copy, Debug, PartialEq, Eq)]
pub(crate) struct Endpoint {
    pub net: u8,
    pub host: u8,
    pub port: u16,
}

/// What a TCP header tells that differs from segment to segment.
#[derive(Clone, Copy, Debug, PartialEq, Eq)]
pub(crate) struct Segment {
    pub source: Endpoint,
    pub destination: Endpoint,
    pub seq: u32,
    pub ack: u32,
    pub flags: u8,
}

/// The plain sum of the 16-bit words of these bytes.
fn word_sum(bytes: &[u8]) -> u32
    requires { length bytes.now ≤ 1000 }
    ensures value { result ≡ word_sum bytes.now }
    ensures small { result ≤ 65536 * length bytes.now }
{
    let mut sum = 0;
    let mut rest = bytes;
    while rest.len() >= 2 {
        let (front, back) = rest.split_at(2);
        sum += u32::from(BigEndian::read_u16(front));
        rest = back;
    }
    if rest.len() == 1 {
        sum += u32::from(rest[0]) * 256;
    }
    sum
}

/// The checksum of words with this plain sum: with it among them they sum to all ones.
fn checksum(sum: u32) -> u16
    requires { 0 < sum }
    ensures value { result ≡ checksum sum }
    ensures right { (sum + result) % 65535 ≡ 0 }
{
    (65_534 - (sum - 1) % 65_535) as u16
}

/// The IPv4 header in front of `size` bytes, with this checksum.
#[tactic(auto, unfolding(crate::specs::Frames::ip_fields))]
fn ip_fields(
    source: Endpoint,
    destination: Endpoint,
    protocol: u8,
    size: u16,
    check: u16,
) -> [u8; IP]
    requires { size < 1000 }
    ensures { result ≡ ip_fields source destination protocol size check }
{
    let [size_high, size_low] = (20 + size).to_be_bytes();
    let [check_high, check_low] = check.to_be_bytes();
    [
        0x45,
        0,
        size_high,
        size_low,
        0,
        1,
        0,
        0,
        64,
        protocol,
        check_high,
        check_low,
        10,
        source.net,
        0,
        source.host,
        10,
        destination.net,
        0,
        destination.host,
    ]
}

/// The IPv4 header in front of `size` bytes.
#[tactic(auto, unfolding(crate::specs::Frames::ip_header))]
fn ip_header(source: Endpoint, destination: Endpoint, protocol: u8, size: u16) -> [u8; IP]
    requires { size < 1000 }
    ensures { result ≡ ip_header source destination protocol size }
{
    let sum = word_sum(&ip_fields(source, destination, protocol, size, 0));
    ip_fields(source, destination, protocol, size, checksum(sum))
}

/// The pseudo header of a TCP segment of `size` bytes.
#[tactic(auto, unfolding(crate::specs::Frames::pseudo_header))]
fn pseudo_header(source: Endpoint, destination: Endpoint, size: u16) -> [u8; 12]
    ensures { result ≡ pseudo_header source destination 6 size }
{
    let [size_high, size_low] = size.to_be_bytes();
    [
        10,
        source.net,
        0,
        source.host,
        10,
        destination.net,
        0,
        destination.host,
        0,
        TCP_PROTOCOL,
        size_high,
        size_low,
    ]
}

impl Segment {
    /// The TCP header with this checksum.
    #[tactic(auto, unfolding(crate::specs::Frames::tcp_fields))]
    fn fields(&self, check: u16) -> [u8; TCP]
        ensures { result ≡ tcp_fields self.now check }
    {
        let [source_high, source_low] = self.source.port.to_be_bytes();
        let [destination_high, destination_low] = self.destination.port.to_be_bytes();
        let [seq_0, seq_1, seq_2, seq_3] = self.seq.to_be_bytes();
        let [ack_0, ack_1, ack_2, ack_3] = self.ack.to_be_bytes();
        let [check_high, check_low] = check.to_be_bytes();
        [
            source_high,
            source_low,
            destination_high,
            destination_low,
            seq_0,
            seq_1,
            seq_2,
            seq_3,
            ack_0,
            ack_1,
            ack_2,
            ack_3,
            0x50,
            self.flags,
            255,
            255,
            check_high,
            check_low,
            0,
            0,
        ]
    }

    /// The TCP header in front of this payload.
    #[tactic(auto, unfolding(crate::specs::Frames::tcp_header, crate::specs::Frames::tcp_sum))]
    fn header(&self, payload: &[u8]) -> [u8; TCP]
        requires { length payload.now ≤ 900 }
        ensures { result ≡ tcp_header self.now payload.now }
    {
        let size = (TCP + payload.len()) as u16;
        let pseudo = pseudo_header(self.source, self.destination, size);
        let sum = word_sum(&pseudo) + word_sum(&self.fields(0)) + word_sum(payload);
        self.fields(checksum(sum))
    }

    /// The frame of this segment with this payload.
    #[tactic(auto, unfolding(crate::specs::Frames::tcp_frame))]
    pub fn frame(&self, alloc: Global, payload: &[u8]) -> Result<Vec<u8>, AllocError>
        requires { length payload.now ≤ 900 }
        ensures made { IfOk result (λ frame. frame.items ≡ tcp_frame self.now payload.now) }
        ensures short { IfOk result (λ frame. length frame.items < 1000) }
    {
        let header = self.header(payload);
        frame(
            alloc,
            self.source,
            self.destination,
            TCP_PROTOCOL,
            &header,
            payload,
        )
    }
}

/// The UDP header in front of `size` bytes.
#[tactic(auto, unfolding(crate::specs::Frames::udp_header))]
fn udp_header(source: Endpoint, destination: Endpoint, size: u16) -> [u8; 8]
    requires { size ≤ 900 }
    ensures { result ≡ udp_header source destination size }
{
    let [source_high, source_low] = source.port.to_be_bytes();
    let [destination_high, destination_low] = destination.port.to_be_bytes();
    let [size_high, size_low] = (8 + size).to_be_bytes();
    [
        source_high,
        source_low,
        destination_high,
        destination_low,
        size_high,
        size_low,
        0,
        0,
    ]
}

/// The frame of a UDP datagram with this payload.
#[tactic(auto, unfolding(crate::specs::Frames::udp_frame))]
pub(crate) fn udp_frame(
    alloc: Global,
    source: Endpoint,
    destination: Endpoint,
    payload: &[u8],
) -> Result<Vec<u8>, AllocError>
    requires { length payload.now ≤ 900 }
    ensures made { IfOk result (λ frame. frame.items ≡ udp_frame source destination payload.now) }
    ensures short { IfOk result (λ frame. length frame.items < 1000) }
{
    let header = udp_header(source, destination, payload.len() as u16);
    frame(alloc, source, destination, UDP_PROTOCOL, &header, payload)
}

/// The frame with this header of the protocol and this payload.
#[tactic(auto, unfolding(crate::specs::Frames::frame))]
fn frame(
    alloc: Global,
    source: Endpoint,
    destination: Endpoint,
    protocol: u8,
    header: &[u8],
    payload: &[u8],
) -> Result<Vec<u8>, AllocError>
    requires { length header.now + length payload.now < 950 }
    ensures made { IfOk result (λ bytes. bytes.items
        ≡ frame source destination protocol header.now payload.now) }
    ensures short { IfOk result (λ bytes. length bytes.items < 1000) }
{
    let size = header.len() + payload.len();
    let ip = ip_header(source, destination, protocol, size as u16);
    let mut bytes = Vec::with_capacity(alloc, ETHERNET + IP + size)?;
    bytes.extend_from_slice(ETHERNET_HEADER)?;
    bytes.extend_from_slice(&ip)?;
    bytes.extend_from_slice(header)?;
    bytes.extend_from_slice(payload)?;
    Ok(bytes)
}
