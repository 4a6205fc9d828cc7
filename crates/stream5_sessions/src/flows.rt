//! The table of flows: touching one, and the flows whose lives end.
ghost use Rattle.std.specs.Prelude.{◌≡◌, ◌≤◌, ◌<◌, ◌+◌, ◌-◌, ◌^◌, ◌++◌, [], List, IfOk, IsOk, IsSome, OnOk, OnErr, Some, None};
ghost use Rattle.std.specs.Map.{lookup, values_of};
ghost use Rattle.stream5_sessions.specs.Indexed.{lives_with};
ghost use Rattle.stream5_sessions.specs.Keys.{same_key};
ghost use Rattle.stream5_sessions.specs.Caches.{found_by, kept_by, found_in, touched_state, HasSeen, IsFound, SeesTouch, IsBounded, KeepsBounds, AppendsLive, IsKnown, looked_up};
ghost use Rattle.std.specs.List.Sorted.{IsPermutation, IsSorted};
ghost use Rattle.std.specs.Ordering.{nat_cmp};

use crate::Key;
use crate::lives::Lives;
use edge_io::NoMemory;
use std::alloc::Global;
use std::marker::Model;

/// What a touch of a key found.
#[derive(Clone, Copy, Debug, PartialEq, Eq)]
pub struct Touch {
    /// The flow's number.
    pub flow: u64,
    /// The flow begins with this touch.
    pub fresh: bool,
    /// The flow whose life this touch ends.
    pub evicted: Option<u64>,
}

/// Touches a key, whose flow has the number `next` if it begins.
// In the line of each packet, so that neither the key nor the answer is passed through memory.
#[inline(always)]
fn touched(lives: &mut Lives, key: &Key, next: u64) -> Result<Touch, NoMemory>
    ensures value { IfOk result (λ touch. touch ≡ found_by lives.old.entries lives.old.cap next
        (lookup (same_key key.now) lives.old.entries)) }
    ensures after { OnOk result (lives.new ≡ lives_with
        (kept_by lives.old.entries lives.old.cap next key.now (lookup (same_key key.now) lives.old.entries)) lives.old.cap) }
    ensures err { OnErr result (lives.new ≡ lives.old) }
    ensures known { IsSome (lookup (same_key key.now) lives.old.entries) → IsOk result }
{
    match lives.by_guess(key) {
        Some(flow) => Ok(Touch {
            flow,
            fresh: false,
            evicted: None,
        }),
        None => lives.by_tree(key, next),
    }
}

/// The flows that live: which of a capture's connections are known at this point, each by a number.
///
/// A flow is a stretch of life of a key. Contracts see how many flows of each protocol may live, the
/// number of the next flow, and which touches of keys the value stands for (`HasSeen`).
#[derive(Drop)]
pub struct Flows {
    tcp: Lives,
    udp: Lives,
    next: u64,
}

impl Model for Flows {
    ghost use Rattle.stream5_sessions.specs.Caches.{FlowsState};

    ghost Value = { FlowsState };

    ghost view = { λ flows. record {
      max = record { tcp = flows.tcp.cap; udp = flows.udp.cap };
      next = flows.next;
      tcp = flows.tcp.entries;
      udp = flows.udp.entries;
    } };
}

impl Flows {
    /// No touch yet. At most `max_tcp` flows of TCP and `max_udp` of UDP will live at one time.
    pub fn new(alloc: Global, max_tcp: u32, max_udp: u32) -> Result<Flows, NoMemory>
        requires tcp { 1 ≤ max_tcp }
        requires udp { 1 ≤ max_udp }
        ensures seen { IfOk result (λ flows. HasSeen flows []) }
        ensures most { IfOk result (λ flows. flows.max ≡ record { tcp = max_tcp; udp = max_udp }) }
        ensures kept { IfOk result IsBounded }
    {
        Ok(Flows {
            tcp: Lives::new(alloc, max_tcp)?,
            udp: Lives::new(alloc, max_udp)?,
            next: 0,
        })
    }

    /// Touches a key: tells its flow, whether the flow begins with this touch, and the flow whose life
    /// this touch ends. A key that lives is never refused. Without memory nothing changes.
    pub fn touch(&mut self, key: Key) -> Result<Touch, NoMemory>
        requires { self.old.next < 2 ^ 63 }
        ensures found { IfOk result (λ touch. IsFound self.old key touch) }
        ensures seen { OnOk result (SeesTouch self.old key self.new) }
        ensures most { self.new.max ≡ self.old.max }
        ensures next { self.new.next ≤ self.old.next + 1 }
        ensures bound { KeepsBounds self.new }
        ensures kept { IsBounded self.old → IsBounded self.new }
        ensures known { IsKnown self.old key → IsOk result }
        ensures err { OnErr result (self.new ≡ self.old) }
    {
        self.touch_kept(&key)
    }

    /// Appends the numbers of the flows that live, in ascending order. Without memory `out` stays.
    pub fn live(&self, alloc: Global, out: &mut Vec<u64>) -> Result<(), NoMemory>
        ensures ok { OnOk result (AppendsLive self.now out.old.items out.new.items) }
        ensures err { OnErr result (out.new.items ≡ out.old.items) }
    {
        let flows = self.numbers(alloc)?;
        out.extend_from_slice(&flows)?;
        Ok(())
    }

    /// The numbers that are kept, in ascending order.
    fn numbers(&self, alloc: Global) -> Result<Vec<u64>, NoMemory>
        ensures permutation { IfOk result (λ flows. IsPermutation
            (values_of self.now.tcp ++ values_of self.now.udp) flows.items) }
        ensures sorted { IfOk result (λ flows. IsSorted nat_cmp flows.items) }
    {
        let mut flows = self.tcp.flows(alloc)?;
        let others = self.udp.flows(alloc)?;
        flows.extend_from_slice(&others)?;
        flows.sort_unstable();
        Ok(flows)
    }

    /// Touches a key, by the keys that are kept.
    fn touch_kept(&mut self, key: &Key) -> Result<Touch, NoMemory>
        requires { self.old.next < 2 ^ 63 }
        ensures value { IfOk result (λ touch. touch ≡ found_in self.old key.now) }
        ensures after { OnOk result (self.new ≡ touched_state self.old key.now) }
        ensures err { OnErr result (self.new ≡ self.old) }
        ensures known { IsSome (looked_up self.old key.now) → IsOk result }
    {
        let touch = if key.tcp {
            touched(&mut self.tcp, key, self.next)?
        } else {
            touched(&mut self.udp, key, self.next)?
        };
        if touch.fresh {
            self.next += 1;
        }
        Ok(touch)
    }
}
