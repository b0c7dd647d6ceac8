//! The definition of class files: how they are spelled, what their names mean, and the program that classes are (JVM Specification, 4 and 5).
#![tactic(auto)]

mod class;
mod class_fault;
mod code_fault;
mod entry;
mod frame_fault;
mod framed_class;
mod iconst;
mod line;
mod link_fault;
mod local_name;
mod member;
mod method;
mod miss;
mod op;
mod partial;
mod pool_name;
mod short_index;
mod step;
mod verify_fault;

pub use class::Class;
pub use class_fault::ClassFault;
pub use code_fault::CodeFault;
pub use entry::Entry;
pub use frame_fault::FrameFault;
pub use framed_class::FramedClass;
pub use iconst::Iconst;
pub use line::Line;
pub use link_fault::LinkFault;
pub use local_name::LocalName;
pub use member::Member;
pub use method::Method;
pub use miss::Miss;
pub use op::Op;
pub use partial::Partial;
pub use pool_name::PoolName;
pub use short_index::ShortIndex;
pub use step::Step;
pub use verify_fault::VerifyFault;
