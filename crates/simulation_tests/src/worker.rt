//! Runs by workers: verdicts that were worked out by hand, numbers of skipped pieces, and gates
//! that hold workers until others have come.

mod fixtures;
mod gates;
mod schedules;
mod threads;
mod watched;
mod windows;
