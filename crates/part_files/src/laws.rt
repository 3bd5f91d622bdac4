//! Laws of part files, of their merge, and of its report.

ghost use Rattle.std.specs.Prelude.{◌≡◌, ◌<◌, ◌^◌, ◌∷◌, ◌++◌, ℕ, All, List, Option, false, true};
ghost use Rattle.std.specs.Prelude.{length, map};
ghost use Rattle.bench_net.specs.Statement.{Statement};
ghost use Rattle.bench_net.specs.Refusal.{IsAccepted};
ghost use Rattle.bench_net.specs.Scan.{sources};
ghost use Rattle.fault_model.specs.declared.Model.{Model};
ghost use Rattle.fault_model.specs.Fault.{faults};
ghost use Rattle.fault_model.specs.Collapse.{AreClassesOf, Collapsed};
ghost use Rattle.patterns.specs.Tests.{HasTests, TestList};
ghost use Rattle.block_sim.specs.Parts.{Parts};
ghost use Rattle.workers.specs.Verdict.{AreFirsts};
ghost use Rattle.region_runs.specs.declared.parts.PartVerdict.{PartVerdict};
ghost use Rattle.region_runs.specs.Part.{ArePartVerdicts};
ghost use Rattle.job_loading.specs.Jobs.{IsJobOf};
ghost use Rattle.report.specs.declared.contents.Lines.{Lines};
ghost use Rattle.report.specs.EndToEnd.{IsReportOf};
ghost use Rattle.report.specs.Report.{class_coverage_line, fault_text, report};
ghost use Rattle.part_files.specs.declared.joining.MergeFault.{MergeFault};
ghost use Rattle.part_files.specs.declared.part_reader.PartFault.{PartFault};
ghost use Rattle.part_files.specs.declared.part_reader.PartFault.TheVariants as fault;
ghost use Rattle.part_files.specs.PartText.{IsPartTextOf, PartHead, head_of};
ghost use Rattle.part_files.specs.PartReading.{IsPart, IsPartRefusal};
ghost use Rattle.part_files.specs.Merging.{MergedRun, report_text};
ghost use Rattle.part_files.specs.WholeMerge.{AreAllPartsOf, IsForMemory, IsMergeOf};
ghost use Rattle.part_files.specs.WholeMerge.{IsRefusedMerge};
ghost use Rattle.part_files.specs.WholeMerge.{IsSomePartOf, IsSomePartDistinguished, PartedRun};

use bench_net::one_answer;
use fault_model::laws::{collapsing, stems};

/// States that a file is the part file of only one first line, one list of faults and one list of
/// verdicts.
pub fn one_part_text()
    ensures { (text : List ℕ) (h k : PartHead) (faults others : List (List ℕ))
        (verdicts more : List PartVerdict) → IsPart text h faults verdicts
        → IsPart text k others more → (h ≡ k) × (faults ≡ others) × (verdicts ≡ more) }
{}

/// States that reading a part file fails only for memory.
pub fn no_refusal_of_part_text()
    ensures { (text : List ℕ) (h : PartHead) (faults : List (List ℕ))
        (verdicts : List PartVerdict) (refusal : PartFault) → IsPart text h faults verdicts
        → IsPartRefusal text refusal → refusal ≡ fault.Memory }
{}

/// States that the report of the names of a circuit's faults is the report of the circuit.
pub fn one_report()
    ensures { (m : Model) (c : List Statement) (firsts : List (Option ℕ)) (lines : Lines)
        → report_text (map (fault_text c) (faults m c)) firsts lines ≡ report m c firsts lines }
{}

/// States that the output of a part of a run is a part file. It is read as the part and its run,
/// the names of the circuit's faults, and the verdicts of the run over the part.
pub fn part_text_is_read()
    ensures { (m : Model) (bench text : List ℕ) (part parts : ℕ) (bytes : List ℕ)
        → part < parts → parts < 2 ^ 32 → IsPartTextOf m bench text part parts bytes
        → (job : Parts) × (verdicts : List PartVerdict) × IsJobOf m bench text job
        × ArePartVerdicts job parts part verdicts
        × IsPart bytes (head_of m bench text part parts)
        (map (fault_text job.circuit) (faults m job.circuit)) verdicts }
{}

/// States the report of a merge. Its first file is a part of a run. Each other file is a part of
/// this run, or of a run that the sums distinguish from it. If the merge succeeds, its report is
/// the report of the run's bench file and test file under its model.
pub fn merged_report()
    ensures { (run : PartedRun) (first : List ℕ) (others : List (List ℕ)) (merged : MergedRun)
        (lines : Lines) → IsSomePartOf run first → All (IsSomePartDistinguished run) others
        → IsMergeOf first others merged
        → IsReportOf run.model run.bench run.tests (record { lines = lines; classes = false })
        (report_text merged.faults merged.firsts lines) }
{
    one_answer();
}

/// States that the report of such a merge, with the coverage of the classes of the run's circuit,
/// is also the report of the run.
pub fn merged_class_report()
    ensures { (run : PartedRun) (first : List ℕ) (others : List (List ℕ)) (merged : MergedRun)
        (lines : Lines) (c : List Statement) (classes : Collapsed) → IsSomePartOf run first
        → All (IsSomePartDistinguished run) others → IsMergeOf first others merged
        → IsAccepted run.bench c → AreClassesOf run.model c classes
        → IsReportOf run.model run.bench run.tests (record { lines = lines; classes = true })
        (report_text merged.faults merged.firsts lines
        ++ class_coverage_line classes merged.firsts) }
{
    one_answer();
}

/// States that the first tests of such a merge are the first tests of the faults of the run's
/// circuit under the run's tests.
pub fn merged_firsts()
    ensures { (run : PartedRun) (first : List ℕ) (others : List (List ℕ)) (merged : MergedRun)
        (c : List Statement) → IsSomePartOf run first → All (IsSomePartDistinguished run) others
        → IsMergeOf first others merged → IsAccepted run.bench c
        → (tests : TestList) × HasTests run.tests (length (sources c)) tests
        × AreFirsts run.model c tests.tests merged.firsts }
{
    one_answer();
}

/// States that a merge of the files of all parts of a run, each part once and in any order, fails
/// only for memory.
pub fn no_refusal_of_merge()
    ensures { (run : PartedRun) (first : List ℕ) (others : List (List ℕ)) (refusal : MergeFault)
        → AreAllPartsOf run (first ∷ others) → IsRefusedMerge first others refusal
        → IsForMemory refusal }
{
    one_answer();
    collapsing();
    stems();
}
