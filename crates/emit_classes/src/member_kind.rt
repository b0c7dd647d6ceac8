ghost use Rattle.std.specs.Prelude.{◌≡◌};
ghost use Rattle.emit_classes.specs.Lawful as lawful;

use constant_pool::{Entry, is_field_descriptor, is_member_name, is_method_descriptor};

/// A field or a method that a class names.
#[derive(Clone, Copy)]
pub enum MemberKind {
    Field,
    Method,
}

impl MemberKind {
    /// The entry of a member: the slots of its class, and of its name and descriptor.
    pub fn entry(self, class: u16, pair: u16) -> Entry
        ensures { result ≡ lawful.member_entry self class pair }
    {
        match self {
            MemberKind::Field => Entry::FieldRef(class, pair),
            MemberKind::Method => Entry::MethodRef(class, pair),
        }
    }

    /// Whether such a member can have a name and a descriptor.
    pub fn has(self, name: &[u16], descriptor: &[u16]) -> bool
        ensures { result ≡ lawful.names_member self name.now descriptor.now }
    {
        is_member_name(name)
            && match self {
                MemberKind::Field => is_field_descriptor(descriptor),
                MemberKind::Method => is_method_descriptor(descriptor),
            }
    }
}
