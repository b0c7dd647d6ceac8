//! The frames of a `StackMapTable` as bytes, both ways (JVM Specification, Java SE 7 edition, 4.7.4).
#![tactic(auto)]

mod form;
mod laws;
mod meaning;
mod place;
mod reading;
mod reference_slots;
mod shortest;
mod sizes;
mod table;
mod table_frame;
mod table_type;
mod types;
mod writing;

pub use laws::{tables_are_determined, tables_are_read_back, tables_list_frames};
pub use meaning::listed_frames;
pub use place::Place;
pub use reference_slots::ReferenceSlots;
pub use shortest::shortest_frame;
pub use sizes::table_size;
pub use table::table_of_frames;
pub use table_frame::TableFrame;
pub use table_type::TableType;
pub use types::{INTS, PAGES, STRING};
