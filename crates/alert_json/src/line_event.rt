//! The event that an alert line tells.
ghost use Rattle.std.specs.Prelude.{◌≡◌};
ghost use Rattle.alert_fast.specs.LinesRead.{line_facts};
ghost use Rattle.alert_json.specs.Facts.{event_facts};
ghost use Rattle.alert_json.specs.LineEvents.{pair_of, event_of_line};

use crate::event::{Alert, Event, FiveTuple, Pair};
use alert_fast::AlertLine;
use edge_io::Moment;

fn pair_of(ports: Option<(u16, u16)>) -> Pair
    ensures { result ≡ pair_of ports }
{
    match ports {
        Some((sport, dport)) => Pair::Ports { sport, dport },
        None => Pair::Unknown,
    }
}

/// The event that an alert line tells, at the moment that its time is taken for. Of the packet it knows nothing, nor of
/// the type and the code of a message.
pub fn event_of<'a>(alert: AlertLine<'a>, moment: Moment) -> Event<'a>
    ensures { event_facts result ≡ event_of_line moment.nanos (line_facts alert.entry) }
{
    Event {
        moment,
        flow: FiveTuple {
            protocol: alert.protocol,
            src: alert.ends.src,
            dst: alert.ends.dst,
            pair: pair_of(alert.ends.ports),
        },
        alert: Alert {
            blocked: false,
            gid: alert.mark.gid,
            sid: alert.mark.sid,
            rev: alert.mark.rev,
            msg: alert.msg,
            class: alert.class,
            priority: alert.priority,
        },
        packet: None,
        count: None,
    }
}
