//! Laws about captures that are split, for callers.

ghost use Rattle.std.specs.Prelude.{◌≡◌, true, List, ◌∷◌, ◌++◌};
ghost use Rattle.flow_lanes.specs.Flows.{Detection};
ghost use Rattle.record_jobs.specs.Splitting.{IsSplit, IsSplitWhole, Pairs, Part, all_items, items_between};
ghost use Rattle.record_jobs.specs.Splitting.{of_part, record_items};
ghost use Rattle.record_jobs.specs.Way.{LinkedRecord, Way};

/// A record of a part of a capture, by pairs of addresses, has the items after the part's earlier records that it has
/// after all earlier records, each with the same rules that match it: where there is room for all flows and fragments,
/// and the part begins when the capture does (`each`). Where it also ends when the capture does, all items of the part,
/// those of the flows that live at its end included, are in order the items of the whole that go between its pairs
/// (`closed`).
pub fn parts_have_their_items()
    ensures each { (d : Detection) (way : Way) (part : Part) (records before : List LinkedRecord) (r : LinkedRecord)
        (rest : List LinkedRecord) → IsSplit way part records → before ++ r ∷ rest ≡ records → part r ≡ true
        → record_items d way (of_part part before) r ≡ record_items d way before r }
    ensures closed { (d : Detection) (way : Way) (pairs : Pairs) (part : Part) (records : List LinkedRecord)
        → IsSplitWhole way pairs part records
        → all_items d way (of_part part records) ≡ items_between pairs (all_items d way records) }
{}
