//! A law about the addresses of packets, for callers.

ghost use Rattle.std.specs.Prelude.{ℕ, List};
ghost use Rattle.edge_io.specs.declared.link.Link.{Link};
ghost use Rattle.packet_decode.specs.declared.checks.Checks.{Checks};
ghost use Rattle.ipv6_decode.specs.Addresses.{KeepVersions};

/// What each version reads of a record is between two addresses of that version, so what the record says is between two
/// of one.
pub fn addresses_are_kept()
    ensures { (link : Link) (bytes : List ℕ) (checks : Checks) → KeepVersions link bytes checks }
{}
