//! The trackers, by key and in order of their last fragments.
ghost use Rattle.std.specs.Prelude.{◌≡◌, ◌+◌, ◌<◌, ◌≤◌, ◌^◌, [], ◌∷◌, ◌++◌, length, drop, slice_get, IfOk, OnOk, OnErr};
ghost use Rattle.std.specs.Map.{remove_entry};
ghost use Rattle.std.specs.Option.{option_map};
ghost use Rattle.lru.specs.LruCache.{demoted, lru_cache};
ghost use Rattle.frag3_core.specs.Trackers.{end_of, fragment, held_count, same_key};
ghost use Rattle.frag3_core.specs.Sound.{AreTrackers};
ghost use Rattle.frag3_core.specs.Parts.{Adds, Begins, Grows, Takes, frags_in, is_first, is_kept, placed, roomy, settled};

use crate::seed::Seed;
use crate::tracker::Tracker;
use crate::{DatagramKey, FragRules};
use edge_io::{Moment, NoMemory, Text};
use lru::LruCache;
use packet_decode::IpHead;
use std::alloc::Global;
use std::marker::Model;

/// The trackers, the one whose last fragment came earliest first.
///
/// The cache's first entry is that tracker, the next to be dropped, and one that a fragment joins
/// goes to the end. So an eviction, and a fragment of a known datagram, walk over none of them.
#[derive(Drop)]
pub(crate) struct TrackerCache {
    cache: LruCache<DatagramKey, Tracker, Seed>,
    /// How many fragments the trackers hold.
    held: u64,
}

impl Model for TrackerCache {
    ghost use Rattle.frag3_core.specs.Trackers.{Trackers};

    ghost Value = { Trackers };

    ghost use Rattle.frag3_core.specs.Inside.{trackers_of, IsCache};

    ghost view = { trackers_of };

    ghost invariant = { IsCache };
}

impl TrackerCache {
    /// No tracker. Keys will be hashed with this seed.
    pub fn new(alloc: Global, seed: Seed) -> Result<TrackerCache, NoMemory>
        ensures { IfOk result (λ trackers. trackers ≡ []) }
    {
        Ok(TrackerCache {
            cache: LruCache::unbounded_with_hasher(alloc, seed)?,
            held: 0,
        })
    }

    /// Whether the fragment of this key joins a tracker that is kept: one that has not timed out,
    /// and that is not dropped for the room of this fragment.
    fn keeps(&self, most: u64, key: &DatagramKey, moment: Moment) -> bool
        ensures value { result ≡ is_kept most self.now key.now moment.nanos }
        ensures sound { AreTrackers self.now }
    {
        match self.cache.peek(key) {
            Some(tracker) => {
                let full = self.held >= most && self.is_first(key);
                !tracker.is_timed_out(moment) && !full
            }
            None => false,
        }
    }

    /// Whether the first tracker has this key.
    fn is_first(&self, key: &DatagramKey) -> bool
        ensures { result ≡ is_first key.now self.now }
    {
        match self.cache.peek_mru() {
            Some((first, _)) => key == first,
            None => false,
        }
    }

    /// Drops the first tracker.
    fn drop_first(&mut self)
        ensures { self.new ≡ drop 1 self.old }
    {
        let dropped = pop_first(&mut self.cache);
        self.held -= frags_in(dropped);
    }

    /// Drops the first tracker where there are as many fragments as the limit.
    fn make_room(&mut self, limit: u64)
        ensures { self.new ≡ roomy limit self.old }
    {
        if self.held >= limit {
            self.drop_first();
        }
    }

    /// Drops the tracker of this key.
    fn remove(&mut self, key: &DatagramKey)
        ensures { self.new ≡ remove_entry (same_key key.now) self.old }
    {
        let dropped = self.cache.pop(key);
        self.held -= frags_in(dropped);
    }

    /// Puts the tracker of this key last.
    fn move_last(&mut self, key: &DatagramKey)
        ensures { self.new ≡ demoted (same_key key.now) self.old }
    {
        self.cache.demote(key);
    }

    /// Puts a tracker last, in the stead of any that has its key. Without memory nothing changes.
    fn put_last(&mut self, key: DatagramKey, tracker: Tracker) -> Result<(), NoMemory>
        requires some { 0 < length tracker.segments }
        requires fits { held_count self.old + length tracker.segments < 2 ^ 63 }
        ensures ok { OnOk result
            (self.new ≡ remove_entry (same_key key) self.old ++ (key, tracker) ∷ []) }
        ensures err { OnErr result (self.new ≡ self.old) }
    {
        let frags = tracker.frags();
        let old = self.cache.put(key, tracker)?;
        self.cache.demote(&key);
        self.held = self.held - frags_in(old) + frags;
        Ok(())
    }

    /// Adds a fragment to the tracker of this key, and gives the bytes of its datagram where it is
    /// whole now. Without memory nothing changes.
    fn add(
        &mut self,
        alloc: Global,
        key: &DatagramKey,
        ip: &IpHead,
        part: &[u8],
    ) -> Result<Option<Text>, NoMemory>
        requires some { 0 < length part.now }
        requires fits { end_of ip.now part.now ≤ 65535 }
        requires count { held_count self.old < 2 ^ 32 }
        ensures ok { IfOk result (Adds self.old key.now ip.now part.now self.new) }
        ensures err { OnErr result (self.new ≡ self.old) }
    {
        let Some(tracker) = self.cache.peek_mut(key) else {
            return Ok(None);
        };
        let bytes = tracker.add(alloc, ip, part)?;
        self.held += 1;
        Ok(bytes)
    }

    /// Drops the tracker of this key where its datagram is whole, and puts it last where it isn't.
    fn settle(&mut self, key: &DatagramKey, whole: bool)
        ensures { self.new ≡ settled key.now whole self.old }
    {
        if whole {
            self.remove(key);
        } else {
            self.move_last(key);
        }
    }

    /// Adds a fragment to the tracker of this key, which is kept, with room for it; gives the bytes
    /// of its datagram where it is whole now. Without memory nothing changes.
    // With `begin` kept apart, since the moves of the one are else in the line of the other.
    #[inline(never)]
    fn grow(
        &mut self,
        most: u64,
        alloc: Global,
        key: &DatagramKey,
        ip: &IpHead,
        part: &[u8],
    ) -> Result<Option<Text>, NoMemory>
        requires some { 0 < length part.now }
        requires fits { end_of ip.now part.now ≤ 65535 }
        requires few { held_count self.old ≤ most }
        requires limit { most < 2 ^ 32 }
        ensures ok { IfOk result (Grows most self.old key.now ip.now part.now self.new) }
        ensures err { OnErr result (self.new ≡ self.old) }
    {
        let bytes = self.add(alloc, key, ip, part)?;
        self.make_room(most + 1);
        self.settle(key, bytes.is_some());
        Ok(bytes)
    }

    /// Puts a tracker that a fragment began last, with room for it, in the stead of any that has
    /// its key; where its datagram is whole, none. Without memory nothing changes.
    fn place(
        &mut self,
        most: u64,
        key: DatagramKey,
        tracker: Tracker,
        whole: bool,
    ) -> Result<(), NoMemory>
        requires one { length tracker.segments ≡ 1 }
        requires few { held_count self.old ≤ most }
        requires limit { most < 2 ^ 32 }
        ensures ok { OnOk result (self.new ≡ placed most key tracker whole self.old) }
        ensures err { OnErr result (self.new ≡ self.old) }
    {
        if whole {
            self.remove(&key);
            self.make_room(most);
        } else {
            self.put_last(key, tracker)?;
            self.make_room(most + 1);
        }
        Ok(())
    }

    /// Begins a tracker with a fragment, with room for it, in the stead of any that has its key.
    /// Gives the bytes of its datagram where it is whole at once. Without memory nothing changes.
    // As `grow`.
    #[inline(never)]
    fn begin(
        &mut self,
        most: u64,
        alloc: Global,
        mut tracker: Tracker,
        ip: &IpHead,
        part: &[u8],
    ) -> Result<Option<Text>, NoMemory>
        requires new { tracker.segments ≡ [] }
        requires some { 0 < length part.now }
        requires fits { end_of ip.now part.now ≤ 65535 }
        requires few { held_count self.old ≤ most }
        requires limit { most < 2 ^ 32 }
        ensures ok { IfOk result (Begins most self.old tracker ip.now part.now self.new) }
        ensures err { OnErr result (self.new ≡ self.old) }
    {
        let bytes = tracker.add(alloc, ip, part)?;
        self.place(most, DatagramKey::of(ip), tracker, bytes.is_some())?;
        Ok(bytes)
    }

    /// Takes a fragment that is not ignored, where at most `most` may be held. Gives the bytes of
    /// its datagram where it is whole now. Without memory nothing changes.
    pub fn accept(
        &mut self,
        most: u64,
        alloc: Global,
        ip: &IpHead,
        part: &[u8],
        moment: Moment,
        rules: FragRules,
    ) -> Result<Option<Text>, NoMemory>
        requires some { 0 < length part.now }
        requires fits { end_of ip.now part.now ≤ 65535 }
        requires room { 0 < most }
        requires few { held_count self.old ≤ most }
        requires limit { most < 2 ^ 32 }
        ensures ok { IfOk result
            (Takes most self.old (fragment ip.now part.now moment rules) self.new) }
        ensures few { OnOk result (held_count self.new ≤ most) }
        ensures err { OnErr result (self.new ≡ self.old) }
    {
        let key = DatagramKey::of(ip);
        if self.keeps(most, &key, moment) {
            self.grow(most, alloc, &key, ip, part)
        } else {
            self.begin(most, alloc, Tracker::new(alloc, moment, rules), ip, part)
        }
    }
}

/// Takes the first tracker out of the cache.
fn pop_first(cache: &mut LruCache<DatagramKey, Tracker, Seed>) -> Option<Tracker>
    ensures value { result ≡ option_map (λ (e : _ × _). e.1) (slice_get cache.old.entries 0) }
    ensures entries { cache.new ≡ lru_cache (drop 1 cache.old.entries) cache.old.cap }
{
    match cache.pop_mru() {
        Some((_, tracker)) => Some(tracker),
        None => None,
    }
}

/// How many fragments a tracker held that is dropped, if one is.
fn frags_in(tracker: Option<Tracker>) -> u64
    ensures { result ≡ frags_in tracker }
{
    match tracker {
        Some(tracker) => tracker.frags(),
        None => 0,
    }
}
