//! From the bytes of a bench file and a test file to the bytes of the report, and of the list of
//! faults and classes.
//!
//! [`simulate_text`] writes the first test of a list that detects each fault of a circuit, and the
//! fault coverage, by workers in threads. [`schedule_text`] writes the same in one thread, which
//! makes the moves of an order file. [`faults_text`] lists the faults with their classes. All write
//! to an [`Out`], and their contracts define the bytes. The crate `part_files` writes part files,
//! with lines by [`put_fault_line`] and [`put_coverage`], and the crate `analysis_reports` reports
//! of counts and reasons.
#![tactic(auto)]

mod contents;
mod counts;
mod curve;
mod fault_lines;
mod in_threads;
mod laws;
mod report;
mod run_identity;
mod text;
mod watched;

pub use byte_output::{Formatted, Out, OutFailed, Plain};
pub use contents::{Contents, Lines};
pub use counts::{RunCounts, count_run};
pub use curve::{CurvePoint, curve_of, write_curve_of_run};
pub use job_loading::{Limit, ReasonCounts, ReportFault, SimFault, Watch, job_of};
pub use laws::class_firsts_are;
pub use report::{
    detected_classes, first_text, put_coverage, put_fault_line, write_fault, write_listing,
    write_report, write_report_with,
};
pub use run_identity::model_name;
pub use text::{
    faults_text, faults_text_in, listing_bytes, report_bytes, schedule_text, schedule_text_in,
    schedule_text_with, simulate_text, simulate_text_in,
};
pub use watched::{simulate_text_watched, write_report_of_run};
pub use workers::{Gate, MAX_WORKERS, OpenGate, RunFault, Verdicts};
