//! What holds of classes with tables of frames for classes that were verified: they link, pass and run as these. Each law is the contract
//! of a call that does nothing.
#![tactic(auto)]

mod alike_laws;
mod framed_laws;
mod like_laws;

pub use alike_laws::programs_run_alike;
pub use framed_laws::{
    framed_classes_are_accepted, framed_classes_are_determined, framed_classes_pass,
    framed_classes_run_the_same,
};
pub use like_laws::like_classes_link;
