/// A static field of a class (JVM Specification, 4.5): the slots of its name and of its descriptor.
#[derive(Clone, Copy)]
pub struct Member {
    pub name: u16,
    pub desc: u16,
}
