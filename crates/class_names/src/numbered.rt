ghost use Rattle.std.specs.Prelude.{◌≡◌, All, IfOk};
ghost use Rattle.std.proofs.Props.{props};
ghost use Rattle.class_names.specs.Numbers.{AreTexts, Keeps};
ghost use Rattle.class_names.specs.Keys.{IsNumbered};
ghost use Rattle.class_names.specs.Kept.{IsClass};

use crate::link_error::NoMemory;
use crate::numbered_class::NumberedClass;
use crate::texts::{Texts, first_texts, pool_numbers};
use jvm_code::Class;
use jvm_definition::Sequence;
use std::alloc::Global;

/// Classes, and the numbers of all texts in their pools.
#[derive(Drop)]
pub struct Numbered<'a> {
    pub classes: Vec<NumberedClass<'a>>,
    pub texts: Texts,
    pub ghost texts_are: { AreTexts texts.keys } by { Prim.hlevel props },
    pub ghost numbered: { All (IsNumbered texts.keys) classes.items },
}

impl<'a> Numbered<'a> {
    ghost use Rattle.class_names.specs.Keys.{classes_in};

    /// Numbers the texts in the pools of classes.
    pub fn new(alloc: Global, classes: &'a [Class]) -> Result<Numbered<'a>, NoMemory>
        requires { All IsClass classes.now }
        ensures { IfOk result (λ numbered. classes_in numbered.classes.items ≡ classes.now) }
    {
        let mut texts = first_texts(alloc)?;
        let mut numbered = Vec::new(alloc);
        for class in classes {
            let next = numbered_class(alloc, &mut texts, class)?;
            numbered.push(next)?;
        }
        Ok(Numbered {
            classes: numbered,
            texts,
        })
    }
}

fn numbered_class<'a>(
    alloc: Global,
    texts: &mut Texts,
    class: &'a Class,
) -> Result<NumberedClass<'a>, NoMemory>
    requires texts { AreTexts texts.old.keys }
    requires class { IsClass class.now }
    ensures class { IfOk result (λ x. x.class.now ≡ class.now) }
    ensures numbered { IfOk result (λ x. IsNumbered texts.new.keys x) }
    ensures texts { AreTexts texts.new.keys }
    ensures kept { Keeps texts.old.keys texts.new.keys }
{
    let numbers = pool_numbers(alloc, texts, class.pool.as_slice())?;
    Ok(NumberedClass {
        class,
        numbers: Sequence::new(numbers),
    })
}
