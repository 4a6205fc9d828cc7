//! A law about captures that are split, for callers.

ghost use Rattle.std.specs.Prelude.{◌≡◌, List, []};
ghost use Rattle.record_jobs.specs.Splitting.{Pairs, Part, of_part};
ghost use Rattle.record_jobs.specs.Way.{LinkedRecord};
ghost use Rattle.alert_lines.specs.Beside.{whats};
ghost use Rattle.snort_engine.specs.Course.{Plan};
ghost use Rattle.snort_engine.specs.SplitCaptures.{IsShownApart, IsShownWhole, alerts_of, events_between};
ghost use Rattle.snort_engine.specs.Trace.{Closed, Open, trace};

/// A part of a capture that is split by pairs of addresses shows, in order, the alerts that the whole shows of the
/// part's records, as long as the capture goes on: where there is room for all flows and fragments, no filter counts
/// events of two parts together, and the part begins when the capture does (`going`). Where it also ends when the
/// capture does, and no filter counts events of flows that end with it together with those of another part, it shows,
/// in order, the events of the whole that go between its pairs, those at the end included (`closed`).
pub fn parts_show_their_own()
    ensures going { (plan : Plan) (part : Part) (records : List LinkedRecord) → IsShownApart plan part records
        → trace plan [] (of_part part records) Open ≡ alerts_of part (trace plan [] records Open) }
    ensures closed { (plan : Plan) (pairs : Pairs) (part : Part) (records : List LinkedRecord)
        → IsShownWhole plan pairs part records → whats (trace plan [] (of_part part records) Closed)
        ≡ events_between pairs (whats (trace plan [] records Closed)) }
{}
