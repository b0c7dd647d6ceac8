//! The commands that translate programs: `translate`, `go` and `make`.
#![tactic(auto)]

mod alone_runs;
mod classes;
mod going;
mod made_block;
mod made_files;
pub mod made_laws;
mod made_words;
mod making;
mod metering;
mod playing;
mod statuses;
mod storing;
mod translating;

pub use going::go;
pub use made_files::made_file;
pub use making::make;
pub use translating::translate;
