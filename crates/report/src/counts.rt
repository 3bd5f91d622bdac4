//! The counts of a run.

ghost use Rattle.std.specs.Prelude.{◌≡◌};
ghost use Rattle.report.specs.Counts.{counts_of};

use crate::report::detected_classes;
use block_sim::Job;
use patterns::Tests;
use workers::Verdicts;

/// The numbers of tests, faults and fault classes of a run, and of the faults and classes that a
/// test detects.
#[derive(Clone, Copy, Debug, PartialEq, Eq)]
pub struct RunCounts {
    pub tests: u32,
    /// The number of uncollapsed faults.
    pub faults: u32,
    pub detected: u32,
    pub classes: u32,
    pub detected_classes: u32,
}

/// Counts the tests of a run, the faults and the classes of its job, and the faults and classes
/// that its verdicts detect.
pub fn count_run(job: &Job, tests: &Tests, verdicts: &Verdicts) -> RunCounts
    ensures { result ≡ counts_of tests.now.tests job.now.classes verdicts.now.firsts }
{
    let classes = job.classes();
    RunCounts {
        tests: tests.count(),
        faults: verdicts.total(),
        detected: verdicts.detected(),
        classes: classes.count(),
        detected_classes: detected_classes(classes, verdicts),
    }
}
