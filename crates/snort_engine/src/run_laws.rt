//! Laws about a run, for callers: they test what it answers by what is known of it from outside.

ghost use Rattle.std.specs.Prelude.{◌≡◌, ℕ, ◌<◌, ◌≤◌, false, List, [], None, Some, length, take};
ghost use Rattle.std.specs.List.{All};
ghost use mathlib.Core.List.{IsPrefix};
ghost use Rattle.record_jobs.specs.Way.{LinkedRecord};
ghost use Rattle.unified2_out.specs.declared.record.U2.{U2};
ghost use Rattle.unified2_out.specs.Reading.{AreRecordsOf, joined_text};
ghost use Rattle.unified2_out.specs.Records.{AllFit};
ghost use Rattle.command_words.specs.declared.asked.AlertForm.TheVariants.{Unified2};
ghost use Rattle.snort_engine.specs.Answer.{capture_answer};
ghost use Rattle.snort_engine.specs.Course.{IsFileWay, Lists, Plan, Way, most_file_bytes};
ghost use Rattle.snort_engine.specs.CutCaptures.{Holds, IsCutAfter, IsLimited, end_of, unlimited};
ghost use Rattle.snort_engine.specs.Lines.{lines};
ghost use Rattle.snort_engine.specs.ReadBack.{FitsRecord, FitsRule, entries};
ghost use Rattle.alert_lines.specs.RecordLines.{entry_lines};
ghost use Rattle.pcap_input.specs.Cut.{Clean};
ghost use Rattle.snort_engine.specs.Records.{is_of_blocks, records_in, records_of};
ghost use Rattle.snort_engine.specs.Trace.{CaptureState, Closed};

/// A plan with a limit of records is, on a capture that has as many, the plan without a limit on the capture cut
/// after the last of them: the records are those of the cut (`records`), with a clean ending (`clean`), and the
/// whole answer is its answer, the alert bytes, the warnings, the counts and the status (`answer`). There is such a
/// cut (`cut`), and of a savefile it ends where those records do (`place`). Where a capture has fewer records, the
/// limit says nothing (`fewer`).
pub fn limits_cut_captures()
    ensures records { (plan : Plan) (bytes front : List ℕ) → IsLimited plan bytes front
        → records_of plan bytes ≡ records_of (unlimited plan) front }
    ensures clean { (plan : Plan) (bytes front : List ℕ) → IsLimited plan bytes front → (records_of plan bytes).ending ≡ Clean }
    ensures answer { (plan : Plan) (bytes front warnings : List ℕ) → IsLimited plan bytes front
        → capture_answer plan warnings (Some bytes) ≡ capture_answer (unlimited plan) warnings (Some front) }
    ensures cut { (count : ℕ) (bytes : List ℕ) → 0 < count → Holds bytes count
        → (front : List ℕ) × IsCutAfter count bytes front }
    ensures place { (count : ℕ) (bytes front : List ℕ) → 0 < count → Holds bytes count → IsCutAfter count bytes front
        → is_of_blocks bytes ≡ false → length front ≡ end_of (take count (records_in None bytes).records) }
    ensures fewer { (plan : Plan) (limit : ℕ) (bytes warnings : List ℕ) → plan.limit ≡ Some limit
        → length (records_in None bytes).records < limit
        → capture_answer plan warnings (Some bytes) ≡ capture_answer (unlimited plan) warnings (Some bytes) }
{}

/// The lines of a plan that writes Unified2, whose rules' numbers have four bytes each, are the texts of the records
/// of its alerts, each of which can be read back (`written`), and so are the alert bytes of its answer on any capture
/// (`answer`): bytes give records that fit (`captured`). Bytes are of one list of records (`one`); so a file that
/// holds them tells a line for each of these (`told`), and cut after any of them it is those up to there (`first`).
pub fn written_records_read_back()
    ensures written { (plan : Plan) (records : List LinkedRecord) (state : CaptureState) → plan.form ≡ Unified2
        → All FitsRule plan.rules → All FitsRecord records
        → AreRecordsOf (lines plan [] records state) (entries plan [] records state) }
    ensures answer { (plan : Plan) (bytes warnings : List ℕ) → plan.form ≡ Unified2 → All FitsRule plan.rules
        → AllFit 1 bytes → AreRecordsOf (capture_answer plan warnings (Some bytes)).alerts
        (entries plan [] (records_of plan bytes).records Closed) }
    ensures captured { (plan : Plan) (bytes : List ℕ) → AllFit 1 bytes → All FitsRecord (records_of plan bytes).records }
    ensures one { (bytes : List ℕ) (these those : List U2) → AreRecordsOf bytes these → AreRecordsOf bytes those
        → these ≡ those }
    ensures told { (name bytes : List ℕ) (written : List U2) (way : Way) → AreRecordsOf bytes written
        → length bytes ≤ most_file_bytes → IsFileWay name (Some bytes) way → way ≡ Lists (entry_lines written) }
    ensures first { (bytes : List ℕ) (written : List U2) (count : ℕ) → AreRecordsOf bytes written
        → AreRecordsOf (joined_text (take count written)) (take count written)
        × IsPrefix (joined_text (take count written)) bytes }
{}
