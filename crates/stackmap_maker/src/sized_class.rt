use class_definition::FramedClass;

/// A class with tables of frames, and how many bytes its file has. Where they are too many some tables are not written.
#[derive(Drop)]
pub struct SizedClass {
    pub framed: FramedClass,
    pub bytes: u64,
}
