//! Laws of the coverage of classes.

ghost use Rattle.std.specs.Prelude.{◌≡◌, ℕ, List, Option, Some, slice_get};
ghost use Rattle.bench_net.specs.Statement.{Statement};
ghost use Rattle.bench_net.specs.Circuit.{IsCircuit};
ghost use Rattle.fault_model.specs.declared.Model.{Model};
ghost use Rattle.fault_model.specs.Fault.{Fault};
ghost use Rattle.fault_model.specs.Collapse.{AreClassesOf, Collapsed, IsClassOf};
ghost use Rattle.fault_model.specs.Solution.{Test};
ghost use Rattle.block_sim.specs.First.{IsFirst};
ghost use Rattle.workers.specs.Verdict.{AreFirsts};
ghost use Rattle.report.specs.Report.{class_firsts};

/// States that the first test of a class is the first test of each of its faults.
pub fn class_firsts_are()
    ensures { (m : Model) (c : List Statement) (tests : List Test) (classes : Collapsed)
        (firsts : List (Option ℕ)) (f : Fault) (class : ℕ) (first : Option ℕ) → IsCircuit c
        → AreClassesOf m c classes → AreFirsts m c tests firsts → IsClassOf m c f class
        → slice_get (class_firsts classes firsts) class ≡ Some first
        → IsFirst c tests f first }
{}
