//! Arrays and fields (JVM Specification, 2.11.5).
ghost use Rattle.std.specs.Prelude.{◌≡◌, ◌<◌, ◌∷◌, [], length, IsTrue, OnOk, OnErr, IfErr};
ghost use Rattle.jvm_definition.specs.declared.instruction.Instruction.TheVariants as instructions;
ghost use Rattle.jvm_definition.specs.Values.{is_int, conforms};
ghost use Rattle.jvm_definition.specs.Program.{Program};
ghost use Rattle.jvm_definition.specs.Typing.{access_type};
ghost use Rattle.jvm_activations.specs.Stack.{on_top};
ghost use Rattle.jvm_heap.specs.Regions.{is_array_reference};
ghost use Rattle.jvm_instructions.specs.Workings.{workspace, Keeps};
ghost use Rattle.jvm_instructions.specs.Ready.{finds};
ghost use Rattle.jvm_instructions.specs.Executes.{Does, Traps};

use crate::working::Working;
use jvm_activations::Trap;
use jvm_definition::{ArrayKind, ArrayName, Kind};

impl Working {
    /// `iaload` to `aastore`.
    #[inline]
    pub(crate) fn access(&mut self, name: ArrayName) -> Result<(), Trap>
        requires { IsTrue (finds (workspace self.old).heap (access_type name)
            (workspace self.old).locals (workspace self.old).operands) }
        ensures ok { OnOk result ((program : Program)
            → Does program (instructions.Array name) self.old self.new) }
        ensures err { IfErr result (λ trap. (program : Program)
            → Traps program (instructions.Array name) self.old trap) }
        ensures unchanged { OnErr result (self.new ≡ self.old) }
        ensures keeps { Keeps self.old self.new }
    {
        match name {
            ArrayName::Iaload => self.heap.load_int(&mut self.frames.current.operands),
            ArrayName::Aaload => self.heap.load_page(&mut self.frames.current.operands),
            ArrayName::Iastore => self.heap.store_int(&mut self.frames.current.operands),
            ArrayName::Aastore => self.heap.store_page(&mut self.frames.current.operands),
        }
    }

    /// `arraylength`.
    #[inline]
    pub(crate) fn measure(&mut self) -> Result<(), Trap>
        requires { IsTrue (on_top (is_array_reference self.old.heap.region.arrays ∷ [])
            self.old.frames.current.operands.items) }
        ensures ok { OnOk result ((program : Program)
            → Does program instructions.ArrayLength self.old self.new) }
        ensures err { IfErr result (λ trap. (program : Program)
            → Traps program instructions.ArrayLength self.old trap) }
        ensures unchanged { OnErr result (self.new ≡ self.old) }
        ensures keeps { Keeps self.old self.new }
    {
        self.heap.measure(&mut self.frames.current.operands)
    }

    /// `newarray` of ints and `anewarray`.
    #[inline]
    pub(crate) fn new_array(&mut self, kind: ArrayKind) -> Result<(), Trap>
        requires { IsTrue (on_top (is_int ∷ []) self.old.frames.current.operands.items) }
        ensures ok { OnOk result ((program : Program)
            → Does program (instructions.NewArray kind) self.old self.new) }
        ensures err { IfErr result (λ trap. (program : Program)
            → Traps program (instructions.NewArray kind) self.old trap) }
        ensures unchanged { OnErr result (self.new ≡ self.old) }
        ensures keeps { Keeps self.old self.new }
    {
        self.heap.new_array(&mut self.frames.current.operands, kind)
    }

    /// `getstatic`.
    #[inline]
    pub(crate) fn get_field(&mut self, field: u32, kind: Kind)
        requires field { field < length self.old.fields }
        requires room { length self.old.frames.current.operands.items
            < self.old.frames.current.operands.limit }
        ensures does { (program : Program)
            → Does program (instructions.Get field kind) self.old self.new }
        ensures keeps { Keeps self.old self.new }
    {
        self.frames.current.operands.push(self.fields.get(field));
    }

    /// `putstatic`.
    #[inline]
    pub(crate) fn put_field(&mut self, field: u32, kind: Kind)
        requires field { field < length self.old.fields }
        requires operand { IsTrue (on_top (conforms (workspace self.old).heap kind ∷ [])
            self.old.frames.current.operands.items) }
        ensures does { (program : Program)
            → Does program (instructions.Put field kind) self.old self.new }
        ensures keeps { Keeps self.old self.new }
    {
        let v = self.frames.current.operands.pop();
        self.fields.set(field, v);
    }
}
