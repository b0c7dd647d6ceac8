ghost use Rattle.std.specs.Prelude.{◌≡◌, ℕ, ◌<◌, ◌≤◌, ◌↔◌, ◌∷◌, [], List, Option, IfOk, IsTrue, IsFalse, length, drop};
ghost use Rattle.jvm_definition.specs.Step as definition;
ghost use Rattle.jvm_activations.specs.Frames.{HasRoom, given, entered, waiting_at, frame_at};
ghost use Rattle.jvm_activations.specs.Forms.{Enters};

use crate::callee::Callee;
use crate::frame::Frame;
use crate::operands::NoMemory;
use crate::waiting::Waiting;
use jvm_definition::Value;
use std::alloc::Global;

/// The frames of a program, at most 64 (JVM Specification, 2.6). All memory is taken by `new`.
#[derive(Drop)]
pub struct Frames {
    /// The frame that runs.
    pub current: Frame,
    /// The frames that wait for its return.
    pub waiting: Waiting,
}

impl Frames {
    ghost use Rattle.jvm_activations.specs.declared.frame.Frame.{Frame as Kept};
    ghost use Rattle.jvm_activations.specs.Waiting.{with_frames, with_result, CanTake};

    /// A frame with room for so many local variables and operands, as each further one has.
    pub fn new(
        alloc: Global,
        locals_limit: usize,
        operands_limit: usize,
    ) -> Result<Frames, NoMemory>
        ensures waiting { IfOk result (λ frames. frames.waiting
            ≡ record {
              frames = [];
              locals_limit = locals_limit;
              operands_limit = operands_limit;
            }) }
        ensures room { IfOk result (λ frames. HasRoom locals_limit operands_limit frames.current) }
    {
        let current = Frame::new(alloc, locals_limit, operands_limit)?;
        let waiting = Waiting::new(alloc, locals_limit, operands_limit)?;
        Ok(Frames { current, waiting })
    }

    /// Whether there are 64 frames.
    #[inline]
    pub fn is_full(&self) -> bool
        ensures full { IsTrue result ↔ (length self.now.waiting.frames ≡ 63) }
        ensures few { length self.now.waiting.frames ≤ 63 }
    {
        self.waiting.depth() == 63
    }

    /// The one frame of a method that is entered with no arguments.
    #[inline]
    pub fn reset(&mut self, callee: Callee)
        requires room { HasRoom self.old.waiting.locals_limit self.old.waiting.operands_limit
            self.old.current }
        requires locals { callee.locals ≤ self.old.waiting.locals_limit }
        ensures entered { self.new.current
            ≡ entered callee [] self.old.waiting.locals_limit self.old.waiting.operands_limit }
        ensures waiting { self.new.waiting ≡ with_frames self.old.waiting [] }
        ensures definition { frame_at 0 self.new.current ≡ definition.entered_frame callee.method [] }
    {
        self.current.enter(callee, &[]);
        self.waiting.clear();
    }

    /// A call: the current frame waits at an index, and the callee's frame has the uppermost operands as its first local variables, the
    /// first argument in variable 0.
    #[inline(always)]
    pub fn call(&mut self, callee: Callee, return_at: u32)
        requires full { length self.old.waiting.frames < 63 }
        requires room { HasRoom self.old.waiting.locals_limit self.old.waiting.operands_limit
            self.old.current }
        requires arguments { callee.parameters ≤ length self.old.current.operands.items }
        requires parameters { callee.parameters ≤ callee.locals }
        requires locals { callee.locals ≤ self.old.waiting.locals_limit }
        ensures entered { self.new.current
            ≡ entered callee (given callee.parameters self.old.current)
            self.old.waiting.locals_limit self.old.waiting.operands_limit }
        ensures waits { self.new.waiting
            ≡ with_frames self.old.waiting (waiting_at return_at callee.parameters self.old.current
            ∷ self.old.waiting.frames) }
        ensures definition { frame_at 0 self.new.current
            ≡ definition.entered_frame callee.method (given callee.parameters self.old.current) }
        ensures enters { Enters callee.method callee.parameters self.old.current.operands.items
            (given callee.parameters self.old.current)
            (drop callee.parameters self.old.current.operands.items) }
    {
        self.waiting.call(&mut self.current, callee, return_at);
    }

    /// A return: the uppermost waiting frame goes on, with the result as an operand; false, with nothing changed, exactly if none
    /// waits.
    #[inline]
    pub fn give(&mut self, value: Option<Value>) -> bool
        requires room { HasRoom self.old.waiting.locals_limit self.old.waiting.operands_limit
            self.old.current }
        requires operand { CanTake value self.old.waiting.frames }
        ensures answer { IsTrue result ↔ (0 < length self.old.waiting.frames) }
        ensures back { (f : Kept) (others : List Kept) → self.old.waiting.frames ≡ f ∷ others
            → (self.new.current ≡ with_result value f)
            × (self.new.waiting ≡ with_frames self.old.waiting others) }
        ensures definition { (offset : ℕ) (f : Kept) (others : List Kept)
            → self.old.waiting.frames ≡ f ∷ others
            → frame_at offset self.new.current ≡ definition.with_result value (frame_at offset f) }
        ensures unchanged { IsFalse result → self.new ≡ self.old }
        ensures limits { HasRoom self.new.waiting.locals_limit self.new.waiting.operands_limit
            self.new.current }
    {
        match value {
            None => self.waiting.give(&mut self.current),
            Some(v) => {
                if !self.waiting.give(&mut self.current) {
                    return false;
                }
                self.current.operands.push(v);
                true
            }
        }
    }
}
