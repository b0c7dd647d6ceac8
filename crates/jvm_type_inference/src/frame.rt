ghost use Rattle.std.specs.Prelude.{◌≡◌, ◌≤◌, ◌++◌, ℕ, [], true, false, None, Some, IfOk, length, option_copied, option_map, slice_get};
ghost use Rattle.jvm_definition.specs.Effect.{last_first};
ghost use Rattle.jvm_definition.specs.Typing as typing;
ghost use Rattle.jvm_definition.specs.Typing.{TypeFrame};
ghost use Rattle.jvm_type_inference.specs.Actions.{effect_of, program_over, Enters};
ghost use Rattle.jvm_type_inference.specs.Working.{working};

use crate::action::Action;
use crate::actions::{action_of, is_local_within};
use crate::code::Code;
use crate::kind_list::KindList;
use crate::locals::{increments, loads, stores};
use crate::moving::moves;
use crate::shared_kinds::SharedKinds;
use crate::stepping::{exchanges, gives, takes_arguments, takes_array, takes_reference};
use jvm_definition::{Instruction, Kind, LinkedMethod};
use std::alloc::{AllocError, Global};

/// The types of the local variables and of the operands at an instruction (JVM Specification, 4.10.1.2).
#[derive(Drop)]
pub struct Frame {
    /// Those of the first local variables; nothing is known of the ones after them, so they cost no memory.
    pub locals: SharedKinds,
    /// Those of the operands, top first.
    pub stack: KindList,
}

impl Frame {
    /// The same frame once more. It takes no memory.
    #[inline(always)]
    pub fn copied(&self) -> Result<Frame, AllocError>
        ensures { IfOk result (λ f. f ≡ self.now) }
    {
        let locals = self.locals.shared()?;
        let stack = self.stack.copied()?;
        Ok(Frame { locals, stack })
    }

    /// Makes of the frame what an instruction does, where it fits.
    #[inline(always)]
    pub fn step(
        &mut self,
        alloc: Global,
        code: &Code<'_>,
        instruction: &Instruction,
    ) -> Result<bool, AllocError>
        ensures enters { IfOk result (λ good. good ≡ true
            → Enters (program_over code.now.methods.now) code.now.method.now instruction.now
            (working self.old.locals self.old.stack)
            (working self.new.locals self.new.stack)) }
        ensures misses { IfOk result (λ good. good ≡ false → (b : TypeFrame)
            → Enters (program_over code.now.methods.now) code.now.method.now instruction.now
            (working self.old.locals self.old.stack) b
            → ⊥) }
        ensures sized { IfOk result (λ good. good ≡ true
            → length self.old.locals ≤ code.now.method.now.locals
            → length self.new.locals ≤ code.now.method.now.locals) }
    {
        let action = action_of(instruction);
        if !is_local_within(&action, code.method.locals) {
            return Ok(false);
        }
        if !self.act(alloc, code.methods, &action)? {
            return Ok(false);
        }
        Ok(self.stack.words() <= usize::from(code.method.stack))
    }

    // Takes the arguments of the method with a number and gives what it gives.
    fn call(
        &mut self,
        alloc: Global,
        methods: &[LinkedMethod],
        number: usize,
    ) -> Result<bool, AllocError>
        ensures fits { IfOk result (λ good. good ≡ true
            → typing.applied (typing.call_type (slice_get methods.now number))
            (working self.old.locals self.old.stack)
            ≡ Some (working self.new.locals self.new.stack)) }
        ensures misses { IfOk result (λ good. good ≡ false
            → typing.applied (typing.call_type (slice_get methods.now number))
            (working self.old.locals self.old.stack)
            ≡ None) }
        ensures locals { IfOk result (λ _. self.new.locals ≡ self.old.locals) }
    {
        match method_at(methods, number) {
            Some(method) => called(alloc, &mut self.stack, method),
            None => Ok(false),
        }
    }

    // Makes of the frame what an action does, where it fits.
    fn act(
        &mut self,
        alloc: Global,
        methods: &[LinkedMethod],
        action: &Action,
    ) -> Result<bool, AllocError>
        ensures fits { IfOk result (λ good. good ≡ true
            → typing.applied (effect_of (program_over methods.now) action.now)
            (working self.old.locals self.old.stack)
            ≡ Some (working self.new.locals self.new.stack)) }
        ensures misses { IfOk result (λ good. good ≡ false
            → typing.applied (effect_of (program_over methods.now) action.now)
            (working self.old.locals self.old.stack)
            ≡ None) }
        ensures sized { IfOk result (λ _. (n : ℕ) → length self.old.locals ≤ n
            → typing.local_within (effect_of (program_over methods.now) action.now) n
            → length self.new.locals ≤ n) }
    {
        match action {
            Action::Exchanges(kinds, given) => exchanges(alloc, &mut self.stack, kinds, *given),
            Action::Takes(kind) => exchanges(alloc, &mut self.stack, &[*kind], None),
            Action::Calls(number) => self.call(alloc, methods, *number as usize),
            Action::TakesReference => Ok(takes_reference(&mut self.stack)),
            Action::TakesArray => {
                if !takes_array(&mut self.stack) {
                    return Ok(false);
                }
                self.stack.push(alloc, Kind::Int)?;
                Ok(true)
            }
            Action::Loads(moved, index) => loads(
                alloc,
                self.locals.as_slice(),
                &mut self.stack,
                *moved,
                usize::from(*index),
            ),
            Action::Stores(moved, index) => {
                stores(
                    alloc,
                    &mut self.locals,
                    &mut self.stack,
                    *moved,
                    usize::from(*index),
                )
            }
            Action::Increments(index) => Ok(increments(
                self.locals.as_slice(),
                usize::from(*index),
            )),
            Action::Shuffles(name) => moves(alloc, &mut self.stack, *name),
            Action::Never => Ok(false),
        }
    }
}

fn method_at(methods: &[LinkedMethod], number: usize) -> Option<&LinkedMethod>
    ensures { option_copied result ≡ slice_get methods.now number }
{
    methods.get(number)
}

fn called(alloc: Global, stack: &mut KindList, method: &LinkedMethod) -> Result<bool, AllocError>
    ensures fits { IfOk result (λ good. good ≡ true
        → option_map (λ s. typing.given_by method.now.gives_int ++ s)
        (typing.taken (last_first method.now.parameters []) stack.old)
        ≡ Some stack.new) }
    ensures misses { IfOk result (λ good. good ≡ false
        → typing.taken (last_first method.now.parameters []) stack.old ≡ None) }
{
    if !takes_arguments(stack, method.parameters.as_slice()) {
        return Ok(false);
    }
    let given = if method.gives_int {
        Some(Kind::Int)
    } else {
        None
    };
    gives(alloc, stack, given)?;
    Ok(true)
}
