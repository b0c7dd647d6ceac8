//! The method with which a program begins.
ghost use Rattle.std.specs.Prelude.{◌≡◌, codes, position, length, ◌≤◌, IfSome, All};
ghost use Rattle.std.specs.Option.{is_some};
ghost use Rattle.class_definition.specs.NameGrammar.{same_text};
ghost use Rattle.class_names.specs.Kept.{IsClass};
ghost use Rattle.class_definition.specs.MemberNames as names;
ghost use Rattle.class_definition.specs.LinkFault.{run_signature, has_run};
ghost use Rattle.class_definition.specs.Linking as linking;

use class_names::text_of;
use jvm_code::{Class, Method};

/// `run` and `()V`.
const RUN: [u16; 3] = [114, 117, 110];

const RUN_DESCRIPTOR: [u16; 3] = [40, 41, 86];

/// The number of the method `run()V` of the first class; None exactly if it has none.
pub fn first_method(classes: &[Class]) -> Option<u32>
    requires { All IsClass classes.now }
    ensures there { is_some result ≡ has_run classes.now }
    ensures found { IfSome result (λ first. first ≡ linking.first_method classes.now) }
{
    match classes.split_first() {
        None => None,
        Some((class, _)) => match run_place(class) {
            None => None,
            Some(place) => Some(place as u32),
        },
    }
}

// The place of the method `run()V` among those of a class.
fn run_place(class: &Class) -> Option<usize>
    ensures { result
        ≡ position (λ m. names.same_signature run_signature (names.method_signature class.now m))
        class.now.methods }
{
    class
        .methods
        .as_slice()
        .iter()
        .position(|method| is_run(class, method))
}

fn is_run(class: &Class, method: &Method) -> bool
    ensures { result ≡ names.same_signature run_signature
        (names.method_signature class.now method.now) }
{
    RUN.as_slice() == text_of(class, method.name)
        && RUN_DESCRIPTOR.as_slice() == text_of(class, method.desc)
}
