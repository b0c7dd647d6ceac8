//! The kinds of what is wrong with what a slot names.
ghost use Rattle.std.specs.Prelude.{◌≡◌, if◌then◌else◌, None, Some, option_map};
ghost use Rattle.class_definition.specs.NameGrammar as profile;
ghost use Rattle.class_definition.specs.PoolChecks.{text_fault};
ghost use Rattle.class_definition.specs.Named as format;

use class_format::ClassFault;
use constant_pool::is_class_name;

/// `Code`.
const CODE: [u16; 4] = [67, 111, 100, 101];

/// `java/lang/Object`.
const OBJECT: [u16; 16] = [
    106, 97, 118, 97, 47, 108, 97, 110, 103, 47, 79, 98, 106, 101, 99, 116,
];

/// Of the name of the class itself.
pub fn this_fault(name: Option<&[u16]>) -> Option<u32>
    ensures { result ≡ text_fault profile.is_class_file_name (option_map (λ x. x.now) name.entry) }
{
    match name {
        None => Some(ClassFault::INDEX),
        Some(name) => utf8_unless(is_class_name(name)),
    }
}

/// Of the name of the class above it.
pub fn is_object(name: Option<&[u16]>) -> bool
    ensures { result ≡ format.is_object (option_map (λ x. x.now) name.entry) }
{
    match name {
        None => false,
        Some(name) => name == OBJECT.as_slice(),
    }
}

/// Of the name of the attribute with a method's code.
pub fn code_name_fault(text: Option<&[u16]>) -> Option<u32>
    ensures { result ≡ format.code_name_fault (option_map (λ x. x.now) text.entry) }
{
    match text {
        None => Some(ClassFault::INDEX),
        Some(name) => attribute_unless(name == CODE.as_slice()),
    }
}

fn utf8_unless(passes: bool) -> Option<u32>
    ensures { result ≡ (if passes then None else Some 6) }
{
    if passes { None } else { Some(ClassFault::UTF8) }
}

fn attribute_unless(passes: bool) -> Option<u32>
    ensures { result ≡ (if passes then None else Some 8) }
{
    if passes {
        None
    } else {
        Some(ClassFault::ATTRIBUTE)
    }
}
