//! Tables of tests: lines that ask, the files that they name, and the answers that are printed beside them. The programs of the room
//! "Tests" read such a table as their input, and print it with what came.
//!
//! A line that begins with a blank belongs to the file above it and is not printed. `docs/TABLES.md` has the forms of files and rows.
#![tactic(auto)]

mod class_file;
mod edit;
mod files;
mod folder;
mod hexadecimal;
mod outcomes;
mod outside;
mod replies;
mod row;
mod segments;
mod shelf;
mod table;
mod words;

pub use class_file::class_file_of;
pub use files::Files;
pub use folder::{contents, folder_row};
pub use hexadecimal::{bytes_of, hex_of, repeated, words_of};
pub use outcomes::outcome_text;
pub use outside::{Outside, command_line};
pub use replies::replies_of;
pub use row::{address, count, long_count, rest, slot, word};
pub use segments::{parts_of, program_of};
pub use table::{Answers, print_answers};
pub use words::words_row;
