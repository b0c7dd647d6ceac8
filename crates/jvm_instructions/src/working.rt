use crate::fields::Fields;
use jvm_activations::Frames;
use jvm_heap::Heap;

/// What the instructions of a program work on (JVM Specification, 2.5 and 2.6).
#[derive(Drop)]
pub struct Working {
    pub frames: Frames,
    pub fields: Fields,
    pub heap: Heap,
}
