//! Laws of all legal histories of a ledger.

ghost use Rattle.std.specs.Prelude.{◌≡◌, ◌≢◌, ◌↔◌, ℕ, Option, Some};
ghost use Rattle.patterns.specs.Least.{Table};
ghost use Rattle.fault_ledger.specs.declared.Shape.{Shape};
ghost use Rattle.fault_ledger.specs.declared.PieceState.{PieceState};
ghost use Rattle.fault_ledger.specs.History.{History, Continues, held_by, entry};
ghost use Rattle.fault_ledger.specs.Answer.{IsLegal, IsTrueTo, SettlesAtLeast, SkippedIsNeverFirst};
ghost use Rattle.fault_ledger.specs.Settled.{IsFirstHit, IsSettledAt};

/// States that a settled class is settled at the least test of every table of outcomes to which the
/// reports are true. The order of the reports and the drops doesn't matter.
pub fn settles_at_the_least_test()
    ensures { (shape : Shape) (table : Table) (h : History) → IsTrueTo shape table h
        → SettlesAtLeast shape table h }
{}

/// States when a class is settled at a test: exactly if the first of its blocks that isn't clear is
/// a hit at that test. It is settled at none exactly if all its blocks are clear.
pub fn settled_at_the_first_hit()
    ensures { (shape : Shape) (h : History) (class : ℕ) (at : Option ℕ)
        → IsSettledAt shape h class at ↔ IsFirstHit shape h class at }
{}

/// States that a skipped piece is never the first piece of its class that isn't clear.
pub fn skipped_is_never_first()
    ensures { (shape : Shape) (h : History) → IsLegal shape h → SkippedIsNeverFirst shape h }
{}

/// States that a piece that isn't open never changes again.
pub fn pieces_change_once()
    ensures { (piece : ℕ) (later h : History) → Continues later h → entry piece h ≢ PieceState.Open
        → entry piece later ≡ entry piece h }
{}

/// States that no two workers hold one piece.
pub fn no_piece_is_held_twice()
    ensures { (first second piece : ℕ) (h : History) → held_by first h ≡ Some piece
        → held_by second h ≡ Some piece → first ≡ second }
{}
