//! Part files: the results of one part of a run, and their merge to the report of the whole run.
//!
//! [`write_part_of_run`] runs one part of the fault classes and writes its part file. [`read_part`]
//! returns what a part file spells. [`Merge`] joins the part files of a run, and [`write_merged`]
//! writes the report that a run without parts writes. The laws state this of every run
//! ([`part_text_is_read`], [`merged_report`]).
#![tactic(auto)]

mod cut;
mod ending;
mod joining;
mod laws;
mod merge;
mod merged;
mod merged_classes;
mod part_reader;
mod part_writer;

pub use ending::write_merged;
pub use joining::MergeFault;
pub use laws::{
    merged_class_report, merged_firsts, merged_report, no_refusal_of_merge,
    no_refusal_of_part_text, one_part_text, one_report, part_text_is_read,
};
pub use merge::Merge;
pub use merged::Merged;
pub use merged_classes::write_merged_with_classes;
pub use part_reader::{PartFault, PartHeader, PartText, read_part};
pub use part_writer::write_part_of_run;
