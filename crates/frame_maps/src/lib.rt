//! Whether methods are typed by the frames that their tables list (JVM Specification, Java SE 7 edition, 4.7.4 and 4.10.1).
#![tactic(auto)]

mod checking;
mod frame_error;
mod placing;
mod walk;
mod way;

pub use checking::check;
pub use class_definition::FrameFault;
pub use frame_error::FrameError;
