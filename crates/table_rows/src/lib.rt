//! Tables for other tools, as comma-separated values (RFC 4180) and as JSON (RFC 8259).
//!
//! [`Rows`] has the heading of a table and the cells of each row. [`table_texts`] makes the bytes
//! of a table in a [`Format`], and [`table_texts_in_threads`] the same in threads.
#![tactic(auto)]

mod cell;
mod csv_rows;
mod json_rows;
mod rows;
mod table;

pub use cell::{Cell, add_cells, add_pieces};
pub use json_rows::add_object;
pub use rows::{Format, Heading, Rows};
pub use table::{put_texts, table_texts, table_texts_in_threads};
