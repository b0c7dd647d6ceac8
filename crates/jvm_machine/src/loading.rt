//! The parts of a machine, with all the memory that it uses.
ghost use Rattle.std.specs.Prelude.{◌≡◌, ◌≤◌, ◌<◌, IfOk, map, length, Some, slice_get};
ghost use Rattle.jvm_definition.specs.Step.{jvm_start};
ghost use Rattle.jvm_definition.specs.Values.{zero_of};
ghost use Rattle.class_definition.specs.Linking.{program_of};
ghost use Rattle.jvm_activations.specs.Frames.{HasRoom};
ghost use Rattle.jvm_heap.specs.Heaps.{nothing_in};
ghost use Rattle.jvm_steps.specs.declared.machine_method.MachineMethod.{MachineMethod};
ghost use Rattle.jvm_steps.specs.Standing.{Going, Roomy, state_in};
ghost use Rattle.jvm_steps.specs.Loading.{IsLoaded};
ghost use Rattle.jvm_machine.specs.Rooms.{IsRoomFor};

use crate::room::room_for;
use jvm_activations::{Callee, Frames};
use jvm_definition::{Kind, LinkedMethod};
use jvm_heap::Heap;
use jvm_instructions::{Fields, Working};
use jvm_steps::{Executable, MachineCode};
use nv_values::RegionWords;
use std::alloc::{AllocError, Global};

/// Out of memory.
pub type NoMemory = AllocError;

/// What the instructions of methods work on: fields of these types, a region of so many words, and 64 frames that have room for each
/// method.
pub(crate) fn working_for(
    alloc: Global,
    kinds: &[Kind],
    methods: &[LinkedMethod],
    words: RegionWords,
) -> Result<Working, NoMemory>
    ensures fields { IfOk result (λ w. w.fields ≡ map zero_of kinds.now) }
    ensures heap { IfOk result (λ w. w.heap ≡ nothing_in words) }
    ensures room { IfOk result (λ w.
        HasRoom w.frames.waiting.locals_limit w.frames.waiting.operands_limit w.frames.current) }
    ensures each { IfOk result (λ w.
        IsRoomFor w.frames.waiting.locals_limit w.frames.waiting.operands_limit methods.now) }
{
    let room = room_for(methods);
    Ok(Working {
        frames: Frames::new(alloc, usize::from(room.locals), usize::from(room.operands))?,
        fields: Fields::new(alloc, kinds)?,
        heap: Heap::new(alloc, words)?,
    })
}

/// The method with a number, as one that is entered without arguments.
pub(crate) fn callee_of(code: &MachineCode, method: u32) -> Callee
    requires { method < length code.now.methods }
    ensures { (entry : MachineMethod) → slice_get code.now.methods method ≡ Some entry
        → result ≡ record {
          method = method;
          start = entry.start;
          parameters = 0;
          locals = entry.locals;
        } }
{
    let entry = code.methods.as_slice()[method as usize];
    Callee {
        method,
        start: entry.start,
        parameters: 0,
        locals: entry.locals,
    }
}

/// The start of a program: its fields are 0 and null, there are no arrays, and its first method is entered.
pub(crate) fn begin(program: &Executable, kinds: &[Kind], entry: Callee, working: &mut Working)
    requires loaded { IsLoaded program.now kinds.now entry }
    requires roomy { Roomy program.now.classes working.old }
    ensures going { Going program.now.classes program.now.code working.new }
    ensures roomy { Roomy program.now.classes working.new }
    ensures state { state_in program.now.classes working.new
        ≡ jvm_start (program_of program.now.classes) }
    ensures size { working.new.heap.region.size ≡ working.old.heap.region.size }
{
    working.fields.reset(kinds);
    working.heap.clear();
    working.frames.reset(entry);
}
