use jvm_definition::Sequence;

/// Where the constant pool of a class has what code names: slots, counted from 1.
#[derive(Drop)]
pub struct References {
    /// The slots of fields, by their numbers in the linked program.
    pub fields: Sequence<u16>,
    /// The number in the linked program of the first of `methods`.
    pub first_method: u32,
    /// The slots of methods, whose numbers follow each other.
    pub methods: Sequence<u16>,
    /// The slot of `Host.call`.
    pub host_call: u16,
    /// The slot of `Host.fault`.
    pub host_fault: u16,
    /// The slot of `String.length`.
    pub string_length: u16,
    /// The slot of `String.charAt`.
    pub string_char_at: u16,
    /// The slot of the class `[I`, of whose values `anewarray` makes an array.
    pub ints_class: u16,
}
