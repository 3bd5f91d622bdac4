//! Laws of fault simulation by blocks, on every circuit and test list.
//!
//! A law is a function without a body. Its clause is the law, and a proof names the function to
//! use it.

ghost use Rattle.std.specs.Prelude.{◌≡◌, ℕ, List};
ghost use Rattle.bench_net.specs.Statement.{Statement};
ghost use Rattle.bench_net.specs.Circuit.{IsWellFormed, HaveArities};
ghost use Rattle.fault_model.specs.declared.Model.{Model};
ghost use Rattle.fault_model.specs.Reordered.{IsReordered};
ghost use Rattle.fault_model.specs.Solution.{Test};
ghost use Rattle.patterns.specs.declared.Outcome.{Outcome};
ghost use Rattle.patterns.specs.Least.{Table};
ghost use Rattle.block_sim.specs.First.{IsTrueOutcome, IsTrueTable, LeastIsFirst};
ghost use Rattle.flat_circuit.specs.Regions.{LeadLaw, OneClassStemLaw, OneStemLaw, PinLaw};
ghost use Rattle.flat_circuit.specs.Regions.{SomeClassStemLaw, SomeStemLaw};
ghost use Rattle.block_sim.specs.Flips.{FaultLaw, LanesLaw, ObserverLaw, RegionLaw, StemLaw};
ghost use Rattle.block_sim.specs.Flips.{StepLaw};
ghost use Rattle.flat_circuit.specs.Reordered.{HasSameReaders};
ghost use Rattle.block_sim.specs.Reordered.{HasSameActive, HasSameFlips, HasSameStems};

/// States that blocks give the first test that detects a fault. Take a table with the true outcome
/// of each class and block. The test of a class's first Hit is the first test that detects each
/// fault of the class. If all blocks are Clear, no test detects one.
pub fn least_is_first()
    ensures { (m : Model) (c : List Statement) (tests : List Test) (table : Table) → IsWellFormed c
        → HaveArities c → IsTrueTable m c tests table → LeastIsFirst m c tests table }
{}

/// States that there is a table with the true outcome of each class and block, under each model.
pub fn true_table()
    ensures { (m : Model) (c : List Statement) (tests : List Test) → IsWellFormed c
        → (table : Table) × IsTrueTable m c tests table }
{}

/// States that a class has one true outcome on a block.
pub fn one_outcome()
    ensures { (m : Model) (c : List Statement) (tests : List Test) (class block : ℕ)
        (first second : Outcome) → IsTrueOutcome m c tests class block first
        → IsTrueOutcome m c tests class block second → first ≡ second }
{}

/// States that each class has one stem, in each model.
pub fn class_stems()
    ensures one { (m : Model) (c : List Statement) → OneClassStemLaw m c }
    ensures some { (m : Model) (c : List Statement) → IsWellFormed c → SomeClassStemLaw m c }
{}

/// States that faults share the circuit after the stem of a fanout-free region. Take a signal that
/// only one gate reads. The complemented signal is detected exactly if the gate passes the change
/// on and the complemented gate is detected. A fault is detected exactly if it changes its first
/// signal and the complement of that signal is detected.
pub fn regions()
    ensures pin { (c : List Statement) → IsWellFormed c → PinLaw c }
    ensures one_stem { (c : List Statement) → OneStemLaw c }
    ensures some_stem { (c : List Statement) → IsWellFormed c → SomeStemLaw c }
    ensures lead { (c : List Statement) → IsWellFormed c → LeadLaw c }
    ensures step { (c : List Statement) → IsWellFormed c → StepLaw c }
    ensures region { (c : List Statement) → IsWellFormed c → RegionLaw c }
    ensures fault { (c : List Statement) → IsWellFormed c → FaultLaw c }
    ensures stem { (c : List Statement) → IsWellFormed c → StemLaw c }
    ensures observer { (c : List Statement) → IsWellFormed c → ObserverLaw c }
    ensures lanes { (c : List Statement) → LanesLaw c }
{}

/// States that results for a circuit whose statements stand in another order are true for the
/// circuit, with each signal by its other number ([`fault_model::laws::reordering`]). The results
/// are readers, observers and stems, the gates that a fault makes active, and the tests that detect
/// a complemented signal.
pub fn reordering()
    ensures readers { (c d : List Statement) → IsWellFormed c → IsReordered c d
        → HasSameReaders c d }
    ensures stems { (c d : List Statement) → IsWellFormed c → IsReordered c d
        → HasSameStems c d }
    ensures active { (c d : List Statement) → IsWellFormed c → IsReordered c d
        → HasSameActive c d }
    ensures flips { (c d : List Statement) → IsWellFormed c → IsReordered c d
        → HasSameFlips c d }
{}
