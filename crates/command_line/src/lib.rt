//! The command line of `faultsim`: words in, a status out.
//!
//! [`run_arguments`] runs the arguments of the process, on the files of the system. [`run_words`]
//! runs any words, on files of the caller's.
#![tactic(auto)]

mod arguments;
mod check;
mod command;
mod form;
mod form_run;
mod inputs;
mod merge;
mod part;
mod progress;
mod run;
mod status;
mod summary;
mod tally;
mod threshold;
mod wanted;

pub use arguments::run_arguments;
pub use command::run_words;
pub use command_basics::{
    FileId, Files, MODELS, Source, SourceFault, VERSION, model_named, status_of,
};
