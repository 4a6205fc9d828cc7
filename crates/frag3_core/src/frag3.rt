//! The fragments of all datagrams, and the datagrams that they make whole.
ghost use Rattle.std.specs.Prelude.{◌≡◌, ◌^◌, ◌<◌, ◌≤◌, [], Some, length, unwrap_or, IfOk, OnOk, OnErr};
ghost use Rattle.frag3_core.specs.Parts.{Takes};
ghost use Rattle.frag3_core.specs.Trackers.{after, answer_of, end_of, fragment, held_count, ignored, taken};

use crate::seed::Seed;
use crate::trackers::TrackerCache;
use crate::{Datagram, FragRules, Ignored, Taken};
use edge_io::{Moment, NoMemory, Text};
use packet_decode::IpHead;
use std::alloc::Global;
use std::marker::Model;

/// The place that no datagram passes: its length has 16 bits in the header (RFC 791, section 3.1).
const LONGEST: u64 = 65535;

/// The fragments that wait for their datagrams.
///
/// Contracts see the most fragments that may be held and the trackers, each with the key of its
/// datagram, the one whose last fragment came earliest first.
#[derive(Drop)]
pub struct Frag3 {
    alloc: Global,
    max_frags: u32,
    /// None until the first fragment comes, since a cache takes memory.
    trackers: Option<TrackerCache>,
}

impl Model for Frag3 {
    ghost use Rattle.frag3_core.specs.Trackers.{Frag3State};

    ghost Value = { Frag3State };

    ghost use Rattle.frag3_core.specs.Outside.{frag3_of, IsFrag3};

    ghost view = { frag3_of };

    ghost invariant = { IsFrag3 };
}

impl Frag3 {
    /// No tracker, where at most `max_frags` fragments may be held. Takes no memory.
    pub fn new(alloc: Global, max_frags: u32) -> Frag3
        requires { 0 < max_frags }
        ensures { result ≡ record { max_frags = max_frags; trackers = [] } }
    {
        Frag3 {
            alloc,
            max_frags,
            trackers: None,
        }
    }

    /// Takes a fragment, `part` of its datagram after this header, that came at the moment.
    ///
    /// It is ignored where its time to live is below `rules.min_ttl`; else where `part` is empty;
    /// else where it ends after place 65535. Any other one joins the tracker of its datagram, or
    /// begins one with these rules. `Whole` comes exactly where the tracker's length is known and
    /// each place below it has a byte. Without memory nothing changes.
    #[tactic(auto, unfolding(crate::specs::Trackers::taken, crate::specs::Trackers::after))]
    pub fn accept(
        &mut self,
        alloc: Global,
        ip: &IpHead,
        part: &[u8],
        moment: Moment,
        rules: FragRules,
    ) -> Result<Taken, NoMemory>
        ensures answer { IfOk result (λ answer.
            answer ≡ taken self.old (fragment ip.now part.now moment rules)) }
        ensures trackers { OnOk result
            (self.new ≡ after self.old (fragment ip.now part.now moment rules)) }
        ensures bound { held_count self.new.trackers ≤ self.new.max_frags }
        ensures err { OnErr result (self.new ≡ self.old) }
    {
        let most = u64::from(self.max_frags);
        if let Some(reason) = ignored_for(ip, part, rules) {
            return Ok(Taken::Ignored(reason));
        }
        make_first(self.alloc, &mut self.trackers, ip, part, moment)?;
        let bytes = join(&mut self.trackers, most, alloc, ip, part, moment, rules)?;
        Ok(answer(ip, bytes))
    }
}

/// Makes the trackers where there are none yet: then this is the first fragment.
fn make_first(
    alloc: Global,
    trackers: &mut Option<TrackerCache>,
    ip: &IpHead,
    part: &[u8],
    moment: Moment,
) -> Result<(), NoMemory>
    ensures ok { OnOk result (trackers.new ≡ Some (unwrap_or trackers.old [])) }
    ensures err { OnErr result (trackers.new ≡ trackers.old) }
{
    if trackers.is_none() {
        *trackers = Some(first(alloc, ip, part, moment)?);
    }
    Ok(())
}

/// No tracker, where this is the first fragment.
// Kept out of the line of the later fragments.
#[cold]
#[inline(never)]
fn first(alloc: Global, ip: &IpHead, part: &[u8], moment: Moment) -> Result<TrackerCache, NoMemory>
    ensures { IfOk result (λ trackers. trackers ≡ []) }
{
    TrackerCache::new(alloc, Seed::of(ip, part, moment))
}

/// The trackers, which were made, take a fragment that is not ignored, in their place.
fn join(
    trackers: &mut Option<TrackerCache>,
    most: u64,
    alloc: Global,
    ip: &IpHead,
    part: &[u8],
    moment: Moment,
    rules: FragRules,
) -> Result<Option<Text>, NoMemory>
    requires made { trackers.old ≡ Some (unwrap_or trackers.old []) }
    requires some { 0 < length part.now }
    requires fits { end_of ip.now part.now ≤ 65535 }
    requires room { 0 < most }
    requires few { held_count (unwrap_or trackers.old []) ≤ most }
    requires limit { most < 2 ^ 32 }
    ensures ok { IfOk result (Takes most (unwrap_or trackers.old []) (fragment ip.now part.now moment rules)
        (unwrap_or trackers.new [])) }
    ensures few { OnOk result (held_count (unwrap_or trackers.new []) ≤ most) }
    ensures err { OnErr result (unwrap_or trackers.new [] ≡ unwrap_or trackers.old []) }
{
    match trackers {
        Some(trackers) => trackers.accept(most, alloc, ip, part, moment, rules),
        None => Ok(None),
    }
}

/// Why a fragment is ignored, if it is.
fn ignored_for(ip: &IpHead, part: &[u8], rules: FragRules) -> Option<Ignored>
    ensures { result ≡ ignored ip.now part.now rules }
{
    if ip.ttl < rules.min_ttl {
        Some(Ignored::Ttl)
    } else if part.is_empty() {
        Some(Ignored::Empty)
    } else if 8 * u64::from(ip.offset) + part.len() as u64 > LONGEST {
        Some(Ignored::Reach)
    } else {
        None
    }
}

/// The answer where these are the bytes of a whole datagram, or where there is none.
fn answer(ip: &IpHead, bytes: Option<Text>) -> Taken
    ensures { result ≡ answer_of ip.now bytes }
{
    match bytes {
        Some(bytes) => Taken::Whole(Datagram {
            ip: IpHead {
                offset: 0,
                more: false,
                ..*ip
            },
            bytes,
        }),
        None => Taken::Held,
    }
}
