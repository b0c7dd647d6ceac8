//! The methods of strings (`java.lang.String`). A string's characters are in its class's constant pool.
ghost use Rattle.std.specs.Prelude.{◌≡◌, ℕ, ◌<◌, ◌^◌, ◌∷◌, [], length, IsTrue, OnOk, OnErr, IfErr};
ghost use Rattle.jvm_definition.specs.declared.instruction.Instruction.TheVariants as instructions;
ghost use Rattle.jvm_definition.specs.Values.{is_int, is_text_reference};
ghost use Rattle.class_definition.specs.Linking.{program_of, class_characters};
ghost use Rattle.jvm_activations.specs.Stack.{on_top};
ghost use Rattle.jvm_instructions.specs.Workings.{Keeps, TextsFit};
ghost use Rattle.jvm_instructions.specs.Executes.{Does, Traps};

use crate::working::Working;
use constant_pool::text_of;
use jvm_activations::Trap;
use jvm_code::Class;
use jvm_definition::Value;

impl Working {
    /// `String.length`.
    #[inline]
    pub(crate) fn text_length(&mut self, classes: &[Class]) -> Result<(), Trap>
        requires operand { IsTrue
            (on_top (is_text_reference ∷ []) self.old.frames.current.operands.items) }
        requires fit { TextsFit classes.now }
        ensures ok { OnOk result
            (Does (program_of classes.now) instructions.Length self.old self.new) }
        ensures err { IfErr result (Traps (program_of classes.now) instructions.Length self.old) }
        ensures unchanged { OnErr result (self.new ≡ self.old) }
        ensures keeps { Keeps self.old self.new }
    {
        let operands = &mut self.frames.current.operands;
        let Value::Text(class, slot) = operands.peek(0) else {
            return Err(Trap::Null);
        };
        let size = characters(classes, class, slot).len();
        operands.pop();
        operands.push(Value::Int(size as u32));
        Ok(())
    }

    /// `String.charAt`.
    #[inline]
    pub(crate) fn character(&mut self, classes: &[Class]) -> Result<(), Trap>
        requires { IsTrue (on_top (is_int ∷ is_text_reference ∷ [])
            self.old.frames.current.operands.items) }
        ensures ok { OnOk result
            (Does (program_of classes.now) instructions.CharAt self.old self.new) }
        ensures err { IfErr result (Traps (program_of classes.now) instructions.CharAt self.old) }
        ensures unchanged { OnErr result (self.new ≡ self.old) }
        ensures keeps { Keeps self.old self.new }
    {
        let operands = &mut self.frames.current.operands;
        let i = operands.pop_int();
        let Value::Text(class, slot) = operands.peek(0) else {
            operands.push(Value::Int(i));
            return Err(Trap::Null);
        };
        let Some(c) = characters(classes, class, slot).get(i as usize) else {
            operands.push(Value::Int(i));
            return Err(Trap::Index);
        };
        operands.pop();
        operands.push(Value::Int(u32::from(*c)));
        Ok(())
    }
}

/// The characters of a string, by the number of a class and a slot of its pool.
#[inline]
fn characters(classes: &[Class], class: u16, slot: u16) -> &[u16]
    ensures { result.now ≡ (program_of classes.now).characters class slot }
{
    match classes.get(class as usize) {
        Some(c) => text_of(c.pool.as_slice(), slot).unwrap_or(&[]),
        None => &[],
    }
}
