//! Worked examples of the library's calls, as tests. docs/LIBRARY.md shows most of them.

mod compactor;
mod generator;
