//! Classes, one after the other.
ghost use Rattle.std.specs.Prelude.{◌≡◌, ◌+◌, ◌≤◌, ◌++◌, [], ◌∷◌, IfOk, IfErr, OnOk, Some, length, slice_get};
ghost use Rattle.type_verifier.specs.Refusal.{methods_before};
ghost use Rattle.stackmap_maker.specs.Full as full;
ghost use Rattle.stackmap_maker.specs.Made as made;

use crate::methods::{methods_with_tables, number_of};
use crate::sized_class::SizedClass;
use crate::sizes::{MOST, front_size, left, more};
use crate::tabled_classes::TabledClasses;
use crate::unmade::Unmade;
use class_definition::FramedClass;
use jvm_code::Class;
use jvm_definition::Sequence;
use jvm_link::Linked;
use stackmap_pool::framed_pool;
use std::alloc::{AllocError, Global};

/// The classes with pruned code, longer pools, and tables, or the first one whose file would be too large. Each method is inferred
/// once, so that what is made shows that all are typed.
///
/// # Errors
///
/// Untyped: a method is not typed. Full: the first class whose pool has too few slots. NoMemory.
pub fn classes_with_tables(alloc: Global, linked: &Linked) -> Result<TabledClasses, Unmade>
    ensures made { IfOk result (made.AreTabledFor linked.now.classes) }
    ensures unmade { IfErr result (full.IsUnmade linked.now.classes) }
{
    let classes = linked.classes.as_slice();
    let methods = linked.methods.as_slice();
    let mut tabled = TabledClasses::Framed(Vec::new(alloc));
    let mut first = 0;
    for number in 0..classes.len() {
        let class = &classes[number];
        let name = number_of(number)?;
        let room = room_of(&tabled);
        let sized = class_with_tables(alloc, linked, name, first, class, room)?;
        tabled = with_class(tabled, name, sized)?;
        first = behind(first, class, methods.len());
    }
    Ok(tabled)
}

// How many bytes of a class are written: none once a class is too large.
fn room_of(tabled: &TabledClasses) -> u64
    ensures { made.IsRoomOf tabled.now result }
{
    match tabled {
        TabledClasses::Framed(_framed) => MOST,
        TabledClasses::TooLarge { .. } => 0,
    }
}

// What becomes of classes and one more, which has a number.
fn with_class(
    tabled: TabledClasses,
    number: u32,
    class: SizedClass,
) -> Result<TabledClasses, AllocError>
    ensures { IfOk result (made.IsWithClass tabled number class) }
{
    match tabled {
        TabledClasses::Framed(framed) => {
            if MOST < class.bytes {
                return Ok(TabledClasses::TooLarge {
                    class: number,
                    bytes: class.bytes,
                });
            }
            let mut framed = framed;
            framed.push(class.framed)?;
            Ok(TabledClasses::Framed(framed))
        }
        TabledClasses::TooLarge { class, bytes } => Ok(TabledClasses::TooLarge { class, bytes }),
    }
}

// The number of the method behind those of a class, the first of which has a number.
fn behind(first: usize, class: &Class, count: usize) -> usize
    requires { first + length class.now.methods ≤ count }
    ensures { result ≡ first + length class.now.methods }
{
    first + class.methods.as_slice().len()
}

// A class, whose first method has a number in the program. Its tables are written where its file has at most so many bytes.
fn class_with_tables(
    alloc: Global,
    linked: &Linked,
    number: u32,
    first: usize,
    class: &Class,
    most: u64,
) -> Result<SizedClass, Unmade>
    requires there { slice_get linked.now.classes number ≡ Some class.now }
    requires first { first ≡ methods_before linked.now.classes number }
    ensures made { IfOk result (made.IsClassMadeWithin linked.now.classes number class.now most) }
    ensures unmade { IfErr result (full.IsUnmadeAt linked.now.classes number class.now) }
{
    let Some(pool) = framed_pool(alloc, class.pool.as_slice())? else {
        return Err(Unmade::Full(number));
    };
    let front = front_size(&pool, class.fields.as_slice().len())?;
    let room = left(most, front);
    let Some(tabled) = methods_with_tables(alloc, linked, number, first, class, &pool, room)? else {
        return Err(Unmade::Untyped);
    };
    let bytes = more(front, tabled.bytes)?;
    let fields = Vec::from_slice(alloc, class.fields.as_slice())?;
    let class = Class {
        pool: Sequence::new(pool),
        this_class: class.this_class,
        super_class: class.super_class,
        fields: Sequence::new(fields),
        methods: Sequence::new(tabled.methods),
    };
    let framed = FramedClass {
        class,
        tables: Sequence::new(tabled.tables),
    };
    Ok(SizedClass { framed, bytes })
}
