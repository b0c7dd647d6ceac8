//! The classes that are known: their names, and the methods that a class may call (JVM Specification, 5.4.3).
ghost use Rattle.std.specs.Prelude.{◌≡◌, [], ◌∷◌};
ghost use Rattle.class_definition.specs.NameGrammar.{same_text};
ghost use Rattle.class_definition.specs.MemberNames as names;
ghost use Rattle.class_definition.specs.LinkFault.{member_fault, no_method};

use class_definition::LinkFault;

/// `java/lang/Object`.
const OBJECT: [u16; 16] = [
    106, 97, 118, 97, 47, 108, 97, 110, 103, 47, 79, 98, 106, 101, 99, 116,
];

/// `java/lang/String`.
const STRING: [u16; 16] = [
    106, 97, 118, 97, 47, 108, 97, 110, 103, 47, 83, 116, 114, 105, 110, 103,
];

/// `nestedvm/Host`.
const HOST: [u16; 13] = [
    110, 101, 115, 116, 101, 100, 118, 109, 47, 72, 111, 115, 116,
];

/// `length` and `()I`.
const LENGTH: [u16; 6] = [108, 101, 110, 103, 116, 104];

const LENGTH_DESCRIPTOR: [u16; 3] = [40, 41, 73];

/// `charAt` and `(I)C`.
const CHAR_AT: [u16; 6] = [99, 104, 97, 114, 65, 116];

const CHAR_AT_DESCRIPTOR: [u16; 4] = [40, 73, 41, 67];

/// `call` and `([[I[[IIIIII)I`.
const CALL: [u16; 4] = [99, 97, 108, 108];

const CALL_DESCRIPTOR: [u16; 14] = [40, 91, 91, 73, 91, 91, 73, 73, 73, 73, 73, 73, 41, 73];

/// `fault` and `(III)V`.
const FAULT: [u16; 5] = [102, 97, 117, 108, 116];

const FAULT_DESCRIPTOR: [u16; 6] = [40, 73, 73, 73, 41, 86];

/// Whether a class of this name is known.
pub fn is_known(name: &[u16]) -> bool
    ensures { result ≡ names.is_known name.now }
{
    name == OBJECT.as_slice() || is_string(name) || is_host(name)
}

/// Whether it is that of strings.
pub fn is_string(name: &[u16]) -> bool
    ensures { result ≡ same_text name.now names.string_name }
{
    name == STRING.as_slice()
}

/// Whether it is that of the host.
pub fn is_host(name: &[u16]) -> bool
    ensures { result ≡ same_text name.now names.host_name }
{
    name == HOST.as_slice()
}

/// `String.length`.
pub fn is_length(name: &[u16], descriptor: &[u16]) -> bool
    ensures { result ≡ names.same_signature (names.signature name.now descriptor.now)
        names.length_signature }
{
    name == LENGTH.as_slice() && descriptor == LENGTH_DESCRIPTOR.as_slice()
}

/// `String.charAt`.
pub fn is_char_at(name: &[u16], descriptor: &[u16]) -> bool
    ensures { result ≡ names.same_signature (names.signature name.now descriptor.now)
        names.char_at_signature }
{
    name == CHAR_AT.as_slice() && descriptor == CHAR_AT_DESCRIPTOR.as_slice()
}

/// `Host.call`.
pub fn is_host_call(name: &[u16], descriptor: &[u16]) -> bool
    ensures { result ≡ names.same_signature (names.signature name.now descriptor.now)
        names.host_call_signature }
{
    name == CALL.as_slice() && descriptor == CALL_DESCRIPTOR.as_slice()
}

/// `Host.fault`.
pub fn is_host_fault(name: &[u16], descriptor: &[u16]) -> bool
    ensures { result ≡ names.same_signature (names.signature name.now descriptor.now)
        names.host_fault_signature }
{
    name == FAULT.as_slice() && descriptor == FAULT_DESCRIPTOR.as_slice()
}

/// What is wrong with a reference to a method of a known class, or of one that is not there.
pub fn known_method_fault(class: &[u16], name: &[u16], descriptor: &[u16]) -> Option<u32>
    ensures { result ≡ member_fault no_method (names.known_methods class.now)
        (names.signature name.now descriptor.now) }
{
    if is_string(class) {
        string_method_fault(name, descriptor)
    } else if is_host(class) {
        host_method_fault(name, descriptor)
    } else {
        Some(LinkFault::NO_METHOD)
    }
}

fn string_method_fault(name: &[u16], descriptor: &[u16]) -> Option<u32>
    ensures { result ≡ member_fault no_method (names.length_signature ∷ names.char_at_signature
        ∷ []) (names.signature name.now descriptor.now) }
{
    if is_length(name, descriptor) || is_char_at(name, descriptor) {
        None
    } else if name == LENGTH.as_slice() || name == CHAR_AT.as_slice() {
        Some(LinkFault::OTHER_DESCRIPTORS)
    } else {
        Some(LinkFault::NO_METHOD)
    }
}

fn host_method_fault(name: &[u16], descriptor: &[u16]) -> Option<u32>
    ensures { result ≡ member_fault no_method (names.host_call_signature
        ∷ names.host_fault_signature ∷ []) (names.signature name.now descriptor.now) }
{
    if is_host_call(name, descriptor) || is_host_fault(name, descriptor) {
        None
    } else if name == CALL.as_slice() || name == FAULT.as_slice() {
        Some(LinkFault::OTHER_DESCRIPTORS)
    } else {
        Some(LinkFault::NO_METHOD)
    }
}
