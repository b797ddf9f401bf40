ghost use Rattle.std.specs.Prelude.{◌≡◌, ℕ, Bool, List, filter, flat_map};
ghost use Rattle.std.specs.List.Sorted.{IsPermutation, IsSortedBy};
ghost use Rattle.pipe_model.specs.declared.keys.SortKey.{SortKey};
ghost use Rattle.pipe_model.specs.declared.kind.Keep.{Keep};
ghost use Rattle.pipe_model.specs.declared.range.Range.{Range};
ghost use Rattle.pipe_model.specs.Shape.{Records};
ghost use Rattle.pipe_model.specs.Counts.{all_on};
ghost use Rattle.pipe_model.specs.OrderRows.{goes_before, run_pairs, runs_of, sort, sorted, unique};
ghost use Rattle.pipe_model.specs.Listed.{pairs_of};
ghost use Rattle.stream_laws.specs.SameKeys.{have_same_keys};
ghost use Rattle.stream_laws.specs.KeyRuns.{all_of, AreKeyRuns};

/// SORT puts the records that came, in the order of its keys, where those whose keys are all the same stand as they came.
/// No other list is such.
pub fn sorting()
    ensures pairs { (keys : List SortKey) (recs : Records) → pairs_of (sort keys) recs ≡ all_on 0 (sorted keys recs) }
    ensures permutation { (keys : List SortKey) (recs : Records) → IsPermutation recs (sorted keys recs) }
    ensures in_order { (keys : List SortKey) (recs : Records) → IsSortedBy (goes_before keys) (sorted keys recs) }
    ensures stable { (keys : List SortKey) (recs : Records) (rec : List ℕ) →
        filter (have_same_keys keys rec) (sorted keys recs) ≡ filter (have_same_keys keys rec) recs }
    ensures one { (keys : List SortKey) (recs done : Records) → IsSortedBy (goes_before keys) done →
        ((rec : List ℕ) → filter (have_same_keys keys rec) done ≡ filter (have_same_keys keys rec) recs) → done ≡ sorted keys recs }
{}

/// UNIQUE puts the pairs of one run of all records after another: with FIRST its first record on output 0 and the others on
/// output 1, with LAST its last one, and by MULTIPLE and SINGLES by whether it has more than one. The records have one list of
/// runs.
pub fn runs()
    ensures pairs { (count : Bool) (range : Range) (keep : Keep) (recs : Records) →
        pairs_of (unique count range keep) recs ≡ flat_map (run_pairs count keep) (runs_of range recs) }
    ensures whole { (range : Range) (recs : Records) → all_of (runs_of range recs) ≡ recs }
    ensures by_key { (range : Range) (recs : Records) → AreKeyRuns range (runs_of range recs) }
    ensures one { (range : Range) (recs : Records) (runs : List Records) →
        all_of runs ≡ recs → AreKeyRuns range runs → runs ≡ runs_of range recs }
{}
