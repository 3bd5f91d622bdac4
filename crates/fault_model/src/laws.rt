//! Laws of the fault model, on every circuit: crates that simulate faults rely on them.
//!
//! A law is a function without a body. Its clause is the law, and a proof names the function to use
//! it.

ghost use Rattle.std.specs.Prelude.{◌≡◌, ◌<◌, ℕ, Bool, List, Contains, length};
ghost use Rattle.bench_net.specs.Statement.{Statement};
ghost use Rattle.bench_net.specs.Scan.{names};
ghost use Rattle.bench_net.specs.Circuit.{IsWellFormed, HaveArities, IsCircuit};
ghost use Rattle.bench_net.specs.Level.{IsLevelOrder};
ghost use Rattle.fault_model.specs.declared.Line.TheVariants as line;
ghost use Rattle.fault_model.specs.declared.Model.{Model};
ghost use Rattle.fault_model.specs.Fault.{faults};
ghost use Rattle.fault_model.specs.Collapse.{ClassesShowSame};
ghost use Rattle.fault_model.specs.Detection.{ClassesDetectedSame, DetectedAsRepresentative};
ghost use Rattle.fault_model.specs.Laws.{HasSolutions, HasOneSolution, HasRepresentatives};
ghost use Rattle.fault_model.specs.Laws.{HasClasses, ClassesDetectSame, RepresentativesDetectSame};
ghost use Rattle.fault_model.specs.Laws.{DetectionIsOfAnySolution};
ghost use Rattle.fault_model.specs.Reordered.{IsReordered, HasSameSignals, HasSameSinks};
ghost use Rattle.fault_model.specs.Reordered.{IsSolvedSame, IsDetectedSame, HasSameBits};
ghost use Rattle.fault_model.specs.Reordered.{IsDetectedSameAt, IsOrderedBy, IsSignalOrder};
ghost use Rattle.fault_model.specs.Laws.{HavePairsClassOfTransitions};
ghost use Rattle.fault_model.specs.Laws.{HavePairsClassesOfTransitions};

/// States that a circuit without cycles has exactly one solution under each test, fault-free or
/// with a single stuck-at fault.
pub fn solutions()
    ensures exist { (c : List Statement) → IsWellFormed c → HasSolutions c }
    ensures are_one { (c : List Statement) → IsWellFormed c → HasOneSolution c }
{}

/// States that the list has both faults on the stem of each signal: [`crate::Faults::stem_fault`]
/// returns their numbers.
pub fn stems()
    ensures { (m : Model) (c : List Statement) (signal : ℕ) (stuck : Bool)
        → signal < length (names c)
        → Contains (faults m c) (record
        { model = m; line = line.Stem signal; stuck = stuck }) }
{}

/// States that collapsing ends: each fault of the list has exactly one representative, and so a
/// class.
pub fn collapsing()
    ensures representatives { (c : List Statement) → IsWellFormed c → HasRepresentatives c }
    ensures classes { (c : List Statement) → IsWellFormed c → HasClasses c }
{}

/// States that faults of one class are equivalent: they show the same bits to every observer under
/// every test. So the same tests detect them (Bushnell and Agrawal, Essentials of Electronic
/// Testing, on fault equivalence).
pub fn equivalence()
    ensures show_same { (c : List Statement) → IsWellFormed c → HaveArities c → ClassesShowSame c }
    ensures detected_by_same { (c : List Statement) → IsWellFormed c → HaveArities c
        → ClassesDetectSame c }
    ensures detected_at_same { (c : List Statement) → IsWellFormed c → HaveArities c
        → ClassesDetectedSame c }
    ensures detected_as_representative { (c : List Statement) → IsWellFormed c → HaveArities c
        → DetectedAsRepresentative c }
    ensures as_representative { (c : List Statement) → IsWellFormed c → HaveArities c
        → RepresentativesDetectSame c }
{}

/// States that any solutions decide detection, so a simulator may use the ones that it finds.
pub fn detection()
    ensures { (c : List Statement) → IsWellFormed c → DetectionIsOfAnySolution c }
{}

/// States that a circuit whose statements stand in another order has the same signals by other
/// numbers. The same valuations solve it, and the same tests detect a fault on the line that its
/// line moves to. So a simulator may number signals in its own way. If the numbers of sources
/// ascend in an order, a signal's number is its place in the order. The level order is one of
/// these, and a circuit has one level order.
pub fn reordering()
    ensures circuit { (c d : List Statement) → IsReordered c d → IsCircuit c → IsCircuit d }
    ensures signals { (c d : List Statement) → IsWellFormed c → IsReordered c d
        → HasSameSignals c d }
    ensures sinks { (c d : List Statement) → IsWellFormed c → IsReordered c d
        → HasSameSinks c d }
    ensures solved_same { (c d : List Statement) → IsWellFormed c → IsReordered c d
        → IsSolvedSame c d }
    ensures detected_same { (c d : List Statement) → IsWellFormed c → IsReordered c d
        → IsDetectedSame c d }
    ensures same_bits { (c d : List Statement) → IsWellFormed c → IsReordered c d
        → HasSameBits c d }
    ensures detected_same_at { (c d : List Statement) → IsWellFormed c → IsReordered c d
        → IsDetectedSameAt c d }
    ensures in_order { (c : List Statement) (order : List ℕ) → IsWellFormed c
        → IsSignalOrder c order → IsOrderedBy c order }
    ensures by_level { (c : List Statement) (order : List ℕ) → IsWellFormed c
        → IsLevelOrder c order → IsOrderedBy c order }
    ensures one_order { (c : List Statement) (order other : List ℕ) → IsWellFormed c
        → IsLevelOrder c order → IsLevelOrder c other → order ≡ other }
{}

/// States that launch/capture pairs have the same classes as transition faults under tests in a
/// row: the same lines and bits are in one class, and the classes have the same numbers.
pub fn pairs()
    ensures class { (c : List Statement) → HavePairsClassOfTransitions c }
    ensures classes { (c : List Statement) → HavePairsClassesOfTransitions c }
{}
