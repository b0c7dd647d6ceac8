ghost use Rattle.std.specs.Prelude.{◌≡◌, ◌<◌, ◌≤◌, [], IfOk, length, IsTrue, slice_index_or};
ghost use Rattle.jvm_definition.specs.declared.instruction.Instruction.TheVariants as instructions;
ghost use Rattle.jvm_definition.specs.declared.local_kind.LocalKind.{LocalKind as Moved};
ghost use Rattle.jvm_definition.specs.declared.value.Value.TheVariants.{Unset as unset};
ghost use Rattle.jvm_definition.specs.Values.{is_int};
ghost use Rattle.jvm_definition.specs.Effect.{moves_value};
ghost use Rattle.jvm_activations.specs.Variables.{numbered};
ghost use Rattle.jvm_activations.specs.Forms.{DoesWith};

use crate::callee::Callee;
use crate::locals::Locals;
use crate::operands::{NoMemory, Operands};
use jvm_definition::Value;
use std::alloc::Global;

/// A frame (JVM Specification, 2.6).
#[derive(Drop)]
pub struct Frame {
    /// The number of the method that it runs.
    pub method: u32,
    /// The index of the instruction at which it goes on.
    pub at: u32,
    pub locals: Locals,
    pub operands: Operands,
}

impl Frame {
    ghost use Rattle.jvm_activations.specs.Frames.{HasRoom, Keeps, entered};

    /// A frame with room for so many local variables and operands.
    pub(crate) fn new(
        alloc: Global,
        locals_limit: usize,
        operands_limit: usize,
    ) -> Result<Frame, NoMemory>
        ensures { IfOk result (HasRoom locals_limit operands_limit) }
    {
        let locals = Locals::new(alloc, locals_limit)?;
        let operands = Operands::new(alloc, operands_limit)?;
        Ok(Frame {
            method: 0,
            at: 0,
            locals,
            operands,
        })
    }

    /// Enters a method with arguments.
    #[inline]
    pub(crate) fn enter(&mut self, callee: Callee, arguments: &[Value])
        requires arguments { length arguments.now ≤ callee.locals }
        requires room { callee.locals ≤ self.old.locals.limit }
        ensures { self.new
            ≡ entered callee arguments.now self.old.locals.limit self.old.operands.limit }
    {
        self.method = callee.method;
        self.at = callee.start;
        self.locals.enter(arguments, callee.locals as usize);
        self.operands.clear();
    }

    /// `iload` and `aload`.
    #[inline]
    pub fn load(&mut self, i: u8)
        requires local { i < length self.old.locals.items }
        requires room { length self.old.operands.items < self.old.operands.limit }
        ensures does { (kind : Moved) → IsTrue (moves_value kind (numbered self.old.locals.items i))
            → DoesWith (instructions.Load kind i)
            self.old.locals.items self.old.operands.items self.new.locals.items
            self.new.operands.items }
        ensures keeps { Keeps self.old self.new }
    {
        self.operands.push(self.locals.get(i as usize));
    }

    /// `istore` and `astore`.
    #[inline]
    pub fn store(&mut self, i: u8)
        requires local { i < length self.old.locals.items }
        requires operand { 0 < length self.old.operands.items }
        ensures does { (kind : Moved)
            → IsTrue (moves_value kind (slice_index_or self.old.operands.items 0 unset))
            → DoesWith (instructions.Store kind i)
            self.old.locals.items self.old.operands.items self.new.locals.items
            self.new.operands.items }
        ensures keeps { Keeps self.old self.new }
    {
        let v = self.operands.pop();
        self.locals.set(i as usize, v);
    }

    /// `iinc`.
    #[inline]
    pub fn increment(&mut self, i: u8, by: u32)
        requires local { i < length self.old.locals.items }
        requires int { IsTrue (is_int (numbered self.old.locals.items i)) }
        ensures does { DoesWith (instructions.Increment i by)
            self.old.locals.items self.old.operands.items self.new.locals.items
            self.new.operands.items }
        ensures keeps { Keeps self.old self.new }
    {
        let Value::Int(n) = self.locals.get(i as usize) else {
            unreachable!()
        };
        self.locals.set(i as usize, Value::Int(n.wrapping_add(by)));
    }
}
