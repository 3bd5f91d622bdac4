//! Circuits of bench files, tests made from words, order files, and long files. Files with an
//! error, with its words, are cases of the command line.

mod circuits;
mod made;
mod moves;
mod threads;
