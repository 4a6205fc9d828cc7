//! A rule that is no candidate for a payload is not tried: nothing is searched.

use crate::captured::{no_packets, outcome_of, push_packet};
use crate::watched::Watcher;
use edge_io::OpenGate;
use std::alloc::Global;
use std::sync::atomic::{AtomicU64, Ordering};
use std::test::Fail;
use std::thread::Threads;

/// How many searches began.
#[derive(Drop)]
struct Searches {
    begun: AtomicU64,
}

impl Watcher for Searches {
    fn begin(&self, _bytes: &[u8]) {
        self.begun.fetch_add(1, Ordering::SeqCst);
    }
}

/// The rule wants an `a`, by its pattern, and a `zzz`, by which it is a candidate.
const CONFIG: &str = r#"alert udp any any -> any any (pcre:"/a/"; content:"zzz"; sid:1;)
"#;

/// How many searches a payload is worth, and how many alerts it gives.
fn searches_of<R: Threads + Sync>(
    rt: &R,
    alloc: Global,
    payload: &str,
) -> Result<(u64, usize), Fail> {
    let searches = Searches {
        begun: AtomicU64::new(0),
    };
    let mut capture = no_packets(alloc)?;
    push_packet(&mut capture, 1000, payload.as_bytes())?;
    let command = "snort -c r -r p -k none";
    let ran = outcome_of(rt, alloc, command, CONFIG, &capture, &searches, &OpenGate)?;
    Ok((searches.begun.load(Ordering::SeqCst), ran.alerts))
}

#[test]
fn no_search_without_candidate(rt: HostRuntime) -> Result<(), Fail> {
    let (begun, alerts) = searches_of(&rt, rt.alloc(), "a")?;
    assert!(rt;
        begun == 0 && alerts == 0,
        "{begun} searches, {alerts} alerts"
    );
    let (begun, alerts) = searches_of(&rt, rt.alloc(), "azzz")?;
    assert!(rt;
        begun > 0 && alerts == 1,
        "{begun} searches, {alerts} alerts"
    );
    Ok(())
}
