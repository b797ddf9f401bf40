ghost use Rattle.std.specs.Prelude.{◌≡◌, ◌≢◌, List, false, true};
ghost use Rattle.pipe_model.specs.Event.{Event};
ghost use Rattle.pipe_model.specs.Form.Meeting.{Loose};
ghost use Rattle.pipe_model.specs.Table.{form};
ghost use Rattle.pipe_model.specs.Alone.{Given, IsAllAlone};
ghost use Rattle.stream_laws.specs.Finished.{NamesRecords};

use pipe_model::Strand;

/// A strand by itself comes to its end, however much its outputs take, where its pairs have an end and it takes its
/// records in an order that it is told. It has one history.
pub fn finished(strand: &Strand)
    ensures some { (form strand.now).finite ≡ true → (form strand.now).issues ≡ false → (form strand.now).meeting ≢ Loose →
        (g : Given) → NamesRecords strand.now g → (h : List Event) × IsAllAlone strand.now g h }
    ensures one { (g : Given) (a b : List Event) → IsAllAlone strand.now g a → IsAllAlone strand.now g b → a ≡ b }
{}
