//! Branches and switches (JVM Specification, 2.11.7). Targets are indices.
ghost use Rattle.std.specs.Prelude.{◌≡◌, ◌≤◌, ◌∷◌, [], length, IsTrue};
ghost use Rattle.jvm_definition.specs.declared.instruction.Instruction.TheVariants as instructions;
ghost use Rattle.jvm_definition.specs.Values.{is_int};
ghost use Rattle.jvm_definition.specs.Program.{Program};
ghost use Rattle.jvm_definition.specs.Effect.{lookup_target};
ghost use Rattle.jvm_activations.specs.Stack.{on_top};
ghost use Rattle.jvm_activations.specs.Forms.{branch_operands};
ghost use Rattle.jvm_activations.specs.Keys.{keys_of, rise};
ghost use Rattle.jvm_instructions.specs.Workings.{Keeps};
ghost use Rattle.jvm_instructions.specs.Executes.{Comes, Jumps};

use crate::executed::Executed;
use crate::working::Working;
use jvm_definition::{BranchName, LookupSwitch, Pair, TableSwitch};
use nv_words::signed;

impl Working {
    /// `ifeq` to `ifnonnull`.
    #[inline]
    pub(crate) fn branch(&mut self, name: BranchName, target: u32) -> Executed
        requires { IsTrue (on_top (branch_operands name) self.old.frames.current.operands.items) }
        ensures comes { (program : Program)
            → Comes program (instructions.Branch name target) self.old self.new result }
        ensures keeps { Keeps self.old self.new }
    {
        if self.frames.current.operands.branch(name) {
            Executed::Jump(target)
        } else {
            Executed::On
        }
    }

    /// `tableswitch`: the target.
    #[inline]
    pub(crate) fn table_switch(&mut self, switch: &TableSwitch) -> u32
        requires { IsTrue (on_top (is_int ∷ []) self.old.frames.current.operands.items) }
        ensures jumps { (program : Program)
            → Jumps program (instructions.TableSwitch switch.now) self.old self.new result }
        ensures keeps { Keeps self.old self.new }
    {
        let low = switch.low;
        let targets = switch.targets.as_slice();
        let number = (self.frames.current.operands).table_switch(low, targets.len());
        if number == 0 {
            return switch.default;
        }
        match targets.get(number - 1) {
            Some(target) => *target,
            None => unreachable!(),
        }
    }

    /// `lookupswitch`: the target.
    #[inline]
    pub(crate) fn lookup_switch(&mut self, switch: &LookupSwitch) -> u32
        requires operand { IsTrue (on_top (is_int ∷ []) self.old.frames.current.operands.items) }
        requires rise { IsTrue (rise (keys_of switch.now.pairs)) }
        ensures jumps { (program : Program)
            → Jumps program (instructions.LookupSwitch switch.now) self.old self.new result }
        ensures keeps { Keeps self.old self.new }
    {
        let pairs = switch.pairs.as_slice();
        let number = target_number(pairs, signed(self.frames.current.operands.pop_int()));
        if number == 0 {
            switch.default
        } else {
            pairs[number - 1].target
        }
    }
}

/// The number of a key's target among those of keys that rise, counted from 1; 0 where it is none of them. It halves the pairs that
/// are left.
#[inline]
fn target_number(pairs: &[Pair], key: i32) -> usize
    requires { IsTrue (rise (keys_of pairs.now)) }
    ensures number { result ≡ lookup_target pairs.now key 1 }
    ensures within { result ≤ length pairs.now }
{
    let mut low = 0;
    let mut high = pairs.len();
    while low < high {
        let middle = low + (high - low) / 2;
        let here = pairs[middle].key;
        if here == key {
            return middle + 1;
        }
        if here < key {
            low = middle + 1;
        } else {
            high = middle;
        }
    }
    0
}
