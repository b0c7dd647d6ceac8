use class_definition::FramedClass;

/// What becomes of classes that get tables of frames.
#[derive(Drop)]
pub enum TabledClasses {
    Framed(Vec<FramedClass>),
    /// The first class whose file would be too large, numbered from 0, and how many bytes it would have.
    TooLarge { class: u32, bytes: u64 },
}
