//! Tests of calls that run out of memory or threads, and of calls that go on if none is left.

mod ballast;
mod calls;
pub(crate) mod commands;
mod full;
mod parts;
mod reads;
mod runs;
mod sweep;
mod texts;
mod written;
