//! Lists of faults as tables for other tools, as comma-separated values (RFC 4180) and as JSON
//! (RFC 8259), and the summary of a run.
#![tactic(auto)]

mod blocks;
mod column;
mod fault_rows;
mod further;
mod laws;
mod lists;
mod merged;
mod row;
mod run;
mod run_faults;
mod run_lists;
mod summary;
mod write;

pub use fault_rows::faults_table_in;
pub use further::FurtherColumns;
pub use laws::merged_table;
pub use merged::{MergedView, merged_flags, write_view_of_merged};
pub use run::{View, write_view_of_run};
pub use summary::{Summary, summary_text};
pub use table_rows::Format;
