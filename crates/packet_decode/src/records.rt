//! Decoding the bytes of a record.
ghost use Rattle.std.specs.Prelude.{◌≡◌, ◌+◌, ◌≤◌, None, length, IfOk, OnOk};
ghost use Rattle.std.specs.Result.{result_err};
ghost use Rattle.packet_decode.specs.Decoding.{seen, placed, transport_at, datagram_at, decoded};

use crate::checksum::is_header_right;
use crate::ipv4::{DataBounds, data_bounds, ip_head, is_fragment};
use crate::start::link_start;
use crate::transport::transport;
use crate::{Body, Checks, IpVersion, Packet, Placed, Skip};
use edge_io::Link;

/// The data of a datagram that is no fragment, between these bounds; its head is in `out`.
fn datagram_data(
    bytes: &[u8],
    bounds: DataBounds,
    checks: Checks,
    out: &mut Placed,
) -> Result<(), Skip>
    requires in_order { bounds.start ≤ bounds.stop }
    requires captured { bounds.stop ≤ length bytes.now }
    ensures told { placed bytes.now (result_err result) out.new
        ≡ transport_at out.old.ip bytes.now bounds.start bounds.stop checks }
    ensures within { OnOk result (out.new.start + out.new.len ≤ length bytes.now) }
    ensures small { OnOk result (bounds.start + out.new.len ≤ bounds.stop) }
{
    transport(&bytes[bounds.start..bounds.stop], checks, out)?;
    out.start += bounds.start;
    Ok(())
}

/// The IPv4 datagram at `start`, whose data have these bounds.
#[tactic(auto, unfolding(crate::specs::Decoding::datagram_at))]
fn datagram(
    bytes: &[u8],
    start: usize,
    bounds: DataBounds,
    checks: Checks,
    out: &mut Placed,
) -> Result<(), Skip>
    requires has_header { start + 20 ≤ bounds.start }
    requires in_order { bounds.start ≤ bounds.stop }
    requires small { bounds.stop ≤ start + 65535 }
    requires captured { bounds.stop ≤ length bytes.now }
    ensures told { placed bytes.now (result_err result) out.new ≡ datagram_at bytes.now start bounds checks }
    ensures within { OnOk result (out.new.start + out.new.len ≤ length bytes.now) }
    ensures small { OnOk result (out.new.len ≤ 65535) }
{
    if checks.ip && !is_header_right(&bytes[start..bounds.start]) {
        return Err(Skip::Checksum);
    }
    out.ip = ip_head(bytes, start);
    if is_fragment(&out.ip) {
        out.put(Body::Fragment, bounds.start, bounds.stop - bounds.start);
        return Ok(());
    }
    datagram_data(bytes, bounds, checks, out)
}

/// The IPv4 packet of a captured record.
#[tactic(auto, unfolding(crate::specs::Decoding::decoded))]
fn record(link: Link, bytes: &[u8], checks: Checks, out: &mut Placed) -> Result<(), Skip>
    ensures told { placed bytes.now (result_err result) out.new ≡ decoded link bytes.now checks }
    ensures within { OnOk result (out.new.start + out.new.len ≤ length bytes.now) }
    ensures small { OnOk result (out.new.len ≤ 65535) }
{
    let start = link_start(IpVersion::Four, link, bytes)?;
    let bounds = data_bounds(bytes, start)?;
    datagram(bytes, start, bounds, checks, out)
}

/// Reads the headers of a captured record as `decode` does, and writes its packet to `out`, the
/// payload by its place in `bytes`.
///
/// Gives the reason why the record is skipped, and None where `out` has its packet; what `out` has
/// of a record that is skipped means nothing. Takes no memory.
pub fn decode_at(link: Link, bytes: &[u8], checks: Checks, out: &mut Placed) -> Option<Skip>
    ensures told { placed bytes.now result out.new ≡ decoded link bytes.now checks }
    ensures within { result ≡ None → out.new.start + out.new.len ≤ length bytes.now }
    ensures small { result ≡ None → out.new.len ≤ 65535 }
{
    record(link, bytes, checks, out).err()
}

/// Reads the headers of a captured record: link header and tags, IPv4 (RFC 791), and the transport
/// header as `decode_datagram` does, unless the packet is a fragment.
///
/// `bytes` are all that was captured, and the payload is lent from them; it ends with the datagram.
/// The first step that fails decides. `Skip::Short` says that captured bytes are missing, up to the
/// total length; `Skip::OtherProtocol` that this is no IPv4, or comes after more than two tags;
/// `Skip::Malformed` and `Skip::Checksum` speak of the IPv4 header and then of the transport header.
/// Takes no memory.
pub fn decode<'a>(link: Link, bytes: &'a [u8], checks: Checks) -> Result<Packet<'a>, Skip>
    ensures exact { seen result ≡ decoded link bytes.now checks }
    ensures small { IfOk result (λ packet. length packet.payload.now ≤ 65535) }
{
    let mut read = Placed::EMPTY;
    match decode_at(link, bytes, checks, &mut read) {
        None => Ok(read.packet(bytes)),
        Some(skip) => Err(skip),
    }
}
