//! Makes classes with tables of frames for classes that are verified (JVM Specification, Java SE 7 edition, 4.7.4 and 4.10.1).
#![tactic(auto)]

mod classes;
mod determined_laws;
mod framing;
mod methods;
mod size_laws;
mod sized_class;
mod sized_table;
mod sizes;
mod tabled_classes;
mod tabled_method;
mod tabled_methods;
mod unframed;
mod unmade;

pub use classes::classes_with_tables;
pub use determined_laws::frames_are_determined;
pub use framing::{frames, verified_frames};
pub use size_laws::sizes_are_lengths;
pub use tabled_classes::TabledClasses;
pub use unframed::Unframed;
pub use unmade::Unmade;
