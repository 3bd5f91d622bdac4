//! The common base of the programs: the files that they read and write, the names of the fault
//! models, and the statuses with which they end.
#![tactic(auto)]

mod memory;
mod models;
mod source;
mod status;

pub use memory::keep_freed_memory;
pub use models::{MODELS, model_named};
pub use source::{FileId, Files, Source, SourceFault, WriteFault, is_standard_input};
pub use status::{DONE, FAILED, MISUSED, REFUSED, status_of};

/// The version that `faultsim --version` and `faultgen --version` print.
pub const VERSION: &str = "0.3.0";
