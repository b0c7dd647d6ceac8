//! The types of a method are inferred: its least typing, or the least offset up to which it has none (JVM Specification, 4.10).
#![tactic(auto)]

mod action;
mod actions;
mod admitted;
mod blocks;
mod code;
mod few_kinds;
mod flow;
mod frame;
mod inferred;
mod kind_cursor;
mod kind_list;
mod kinds;
mod locals;
mod meet;
mod meeting;
mod method;
mod moving;
mod shared_kinds;
mod spreading;
mod stepping;
mod successors;
mod walk;
mod walked;

pub use code::{Code, starts_of};
pub use frame::Frame;
pub use inferred::Inferred;
pub use kind_list::KindList;
pub use kinds::has_room;
pub use meet::is_frame_below;
pub use method::{check_method, infer};
pub use shared_kinds::SharedKinds;
pub use successors::{falls_through, targets_of};
