ghost use Rattle.std.specs.Prelude.{◌≡◌, ◌<◌, ◌++◌, ◌==◌, if◌then◌else◌, ℕ, List, [], length, map, pos, true};
ghost use Rattle.std.specs.List.{before_first, concat, list_any};
ghost use Rattle.std.specs.declared.option.Option.{Option};
ghost use Rattle.pipe_model.specs.declared.kind.Cutting.TheVariants as Cuttings;
ghost use Rattle.pipe_model.specs.declared.kind.Image.{Image};
ghost use Rattle.pipe_model.specs.Shape.{Records};
ghost use Rattle.pipe_model.specs.Records.{lines};
ghost use Rattle.pipe_model.specs.Counts.{all_on};
ghost use Rattle.pipe_model.specs.Proper.{is_filled};
ghost use Rattle.pipe_model.specs.BlockRows.{block, deblock, fblock, filled, image_of, is_too_long, some_rest};
ghost use Rattle.pipe_model.specs.Listed.{ending_of, pairs_of};
ghost use Rattle.stream_laws.specs.AllBytes.{AreBlocks, ArePartsAt, AreMeasured};

/// FBLOCK puts the bytes of all records, one after another, in blocks of its size; the rest of fewer bytes, where there is
/// one, is the last block, filled to the size where a byte is given.
pub fn blocks_of_bytes()
    ensures { (size : ℕ) (fill : Option ℕ) (recs : Records) → 0 < size → (blocks : Records) × (rest : List ℕ) ×
        AreBlocks size (concat recs) blocks rest × (pairs_of (fblock size fill) recs ≡ all_on 0 (blocks ++ map (filled size fill) (some_rest rest))) }
{}

/// BLOCK puts the images of the records in blocks of its size, and the rest of fewer bytes last. A record that is too long
/// ends it with code 8: then it puts the full blocks of those before that one alone.
pub fn blocks_of_images()
    ensures pairs { (size : ℕ) (image : Image) (recs : Records) → 0 < size → (blocks : Records) × (rest : List ℕ) ×
        AreBlocks size (concat (map (image_of image) (before_first (is_too_long image) recs))) blocks rest ×
        (pairs_of (block size image) recs ≡ all_on 0 (blocks ++ (if list_any (is_too_long image) recs then [] else some_rest rest))) }
    ensures code { (size : ℕ) (image : Image) (recs : Records) →
        ending_of (block size image) recs ≡ (if list_any (is_too_long image) recs then pos 8 else pos 0) }
{}

/// DEBLOCK cuts the bytes of all records, one after another, into records anew: of a size, where the last may have fewer
/// bytes; into lines; between the occurrences of a string; or by the length before each, where a rest isn't put and gives code 8.
pub fn records_of_bytes()
    ensures by_size { (size : ℕ) (recs : Records) → 0 < size → (parts : Records) × (rest : List ℕ) ×
        AreBlocks size (concat recs) parts rest × (pairs_of (deblock (Cuttings.Fixed size)) recs ≡ all_on 0 (parts ++ some_rest rest)) }
    ensures by_lines { (recs : Records) → pairs_of (deblock Cuttings.Linend) recs ≡ all_on 0 (lines (concat recs)) }
    ensures by_string { (string : List ℕ) (recs : Records) → is_filled string ≡ true → (parts : Records) × (rest : List ℕ) ×
        ArePartsAt string (concat recs) parts rest × (pairs_of (deblock (Cuttings.Text string)) recs ≡ all_on 0 (parts ++ some_rest rest)) }
    ensures by_lengths { (recs : Records) → (parts : Records) × (rest : List ℕ) ×
        AreMeasured (concat recs) parts rest × (pairs_of (deblock Cuttings.Sf) recs ≡ all_on 0 parts) ×
        (ending_of (deblock Cuttings.Sf) recs ≡ (if length rest == 0 then pos 0 else pos 8)) }
{}

/// Bytes are blocks of a size, parts at a string or records with their lengths in one way, so what is put is told by that.
pub fn one_cut()
    ensures by_size { (n : ℕ) (bytes : List ℕ) (blocks others : Records) (rest other : List ℕ) →
        AreBlocks n bytes blocks rest → AreBlocks n bytes others other → (blocks ≡ others) × (rest ≡ other) }
    ensures by_string { (string bytes : List ℕ) (parts others : Records) (rest other : List ℕ) → is_filled string ≡ true →
        ArePartsAt string bytes parts rest → ArePartsAt string bytes others other → (parts ≡ others) × (rest ≡ other) }
    ensures by_lengths { (bytes : List ℕ) (parts others : Records) (rest other : List ℕ) →
        AreMeasured bytes parts rest → AreMeasured bytes others other → (parts ≡ others) × (rest ≡ other) }
{}
