/// What is wrong with classes that do not link.
#[derive(Clone, Copy, Debug, PartialEq, Eq)]
pub struct LinkFault {
    /// 1 a class has the name of an earlier or known one, or has two fields or two methods of equal name and descriptor; 2 no class,
    /// 3 no field, 4 no method of that name; 5 the name is there with other descriptors alone; 6 the first class has no method
    /// `run()V`; 7 there are more than 1,024 classes.
    pub kind: u32,
    /// The number of the class at fault, from 0.
    pub class: u32,
    /// The slot of its pool at fault, or 0.
    pub slot: u32,
}

impl LinkFault {
    /// A class has the name of an earlier or known one, or two equal members.
    pub const TWICE: u32 = 1;
    /// There is no such class.
    pub const NO_CLASS: u32 = 2;
    /// There is no such field.
    pub const NO_FIELD: u32 = 3;
    /// There is no such method.
    pub const NO_METHOD: u32 = 4;
    /// The name is there with other descriptors alone.
    pub const OTHER_DESCRIPTORS: u32 = 5;
    /// The first class has no method `run()V`.
    pub const NO_RUN: u32 = 6;
    /// There are more than 1,024 classes.
    pub const TOO_MANY: u32 = 7;
}
