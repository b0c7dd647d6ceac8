ghost use Rattle.std.specs.Prelude.{◌≡◌, ◌<◌, ◌≤◌, ◌↔◌, ◌∷◌, [], IfOk, IsTrue, IsFalse, length};
ghost use Rattle.jvm_activations.specs.Frames.{HasRoom, given, entered, waiting_at};

use crate::callee::Callee;
use crate::frame::Frame;
use crate::operands::NoMemory;
use std::alloc::Global;
use std::marker::Model;
use std::mem;

/// The frames that wait for the return of another one, at most 63. All memory is taken by `new`.
#[derive(Drop)]
pub struct Waiting {
    /// The frames that wait, the uppermost last, and after them spare ones.
    frames: Vec<Frame, Global>,
    /// How many frames wait.
    depth: usize,
    locals_limit: usize,
    operands_limit: usize,
}

impl Model for Waiting {
    ghost use Rattle.jvm_activations.specs.Waiting.{Waits, waiting_of, AreKeptFrames};

    ghost Value = { Waits };

    ghost view = { λ w. record {
      frames = waiting_of w.frames.items w.depth;
      locals_limit = w.locals_limit;
      operands_limit = w.operands_limit;
    } };

    ghost invariant = { λ w. AreKeptFrames w.frames.items w.depth w.locals_limit w.operands_limit };
}

impl Waiting {
    ghost use Rattle.jvm_activations.specs.Waiting.{with_frames};

    /// No frame waits, and each has room for so many local variables and operands.
    pub(crate) fn new(
        alloc: Global,
        locals_limit: usize,
        operands_limit: usize,
    ) -> Result<Waiting, NoMemory>
        ensures { IfOk result (λ waiting. waiting
            ≡ record {
              frames = [];
              locals_limit = locals_limit;
              operands_limit = operands_limit;
            }) }
    {
        let mut frames = Vec::with_capacity(alloc, 63)?;
        for _ in 0..63usize {
            frames.push(Frame::new(alloc, locals_limit, operands_limit)?)?;
        }
        Ok(Waiting {
            frames,
            depth: 0,
            locals_limit,
            operands_limit,
        })
    }

    /// How many frames wait.
    #[inline]
    pub fn depth(&self) -> usize
        ensures depth { result ≡ length self.now.frames }
        ensures few { result ≤ 63 }
    {
        self.depth
    }

    /// No frame waits any more.
    #[inline]
    pub(crate) fn clear(&mut self)
        ensures { self.new ≡ with_frames self.old [] }
    {
        self.depth = 0;
    }

    /// The current frame waits at an index, and a callee's frame with the uppermost operands as arguments is current.
    #[inline(always)]
    pub(crate) fn call(&mut self, current: &mut Frame, callee: Callee, return_at: u32)
        requires full { length self.old.frames < 63 }
        requires room { HasRoom self.old.locals_limit self.old.operands_limit current.old }
        requires arguments { callee.parameters ≤ length current.old.operands.items }
        requires parameters { callee.parameters ≤ callee.locals }
        requires locals { callee.locals ≤ self.old.locals_limit }
        ensures entered { current.new
            ≡ entered callee (given callee.parameters current.old)
            self.old.locals_limit self.old.operands_limit }
        ensures waits { self.new
            ≡ with_frames self.old (waiting_at return_at callee.parameters current.old
            ∷ self.old.frames) }
    {
        match (callee.parameters, callee.locals, current.operands.len()) {
            (2, 4, 2) => self.call_with_all(current, callee.sized(2, 4), return_at),
            (3, 4, 3) => self.call_with_all(current, callee.sized(3, 4), return_at),
            (parameters, locals, count) if count == parameters as usize => {
                self.call_with_all(current, callee.sized(parameters, locals), return_at);
            }
            (parameters, locals, _) => {
                self.call_any(current, callee.sized(parameters, locals), return_at);
            }
        }
    }

    // The same where all operands are arguments: those of a frame that waits need not be kept.
    #[inline(always)]
    fn call_with_all(&mut self, current: &mut Frame, callee: Callee, return_at: u32)
        requires full { length self.old.frames < 63 }
        requires room { HasRoom self.old.locals_limit self.old.operands_limit current.old }
        requires arguments { callee.parameters ≡ length current.old.operands.items }
        requires parameters { callee.parameters ≤ callee.locals }
        requires locals { callee.locals ≤ self.old.locals_limit }
        ensures entered { current.new
            ≡ entered callee (given callee.parameters current.old)
            self.old.locals_limit self.old.operands_limit }
        ensures waits { self.new
            ≡ with_frames self.old (waiting_at return_at callee.parameters current.old
            ∷ self.old.frames) }
    {
        let spare = &mut self.frames[self.depth];
        let arguments = current.operands.uppermost(callee.parameters as usize);
        mem::swap(&mut current.locals, &mut spare.locals);
        current.locals.enter(arguments, callee.locals as usize);
        current.operands.clear();
        spare.operands.clear();
        spare.method = current.method;
        spare.at = return_at;
        current.method = callee.method;
        current.at = callee.start;
        self.depth += 1;
    }

    // The same for any callee.
    #[cold]
    #[inline(never)]
    fn call_any(&mut self, current: &mut Frame, callee: Callee, return_at: u32)
        requires full { length self.old.frames < 63 }
        requires room { HasRoom self.old.locals_limit self.old.operands_limit current.old }
        requires arguments { callee.parameters ≤ length current.old.operands.items }
        requires parameters { callee.parameters ≤ callee.locals }
        requires locals { callee.locals ≤ self.old.locals_limit }
        ensures entered { current.new
            ≡ entered callee (given callee.parameters current.old)
            self.old.locals_limit self.old.operands_limit }
        ensures waits { self.new
            ≡ with_frames self.old (waiting_at return_at callee.parameters current.old
            ∷ self.old.frames) }
    {
        let spare = &mut self.frames[self.depth];
        let parameters = callee.parameters as usize;
        spare.enter(callee, current.operands.uppermost(parameters));
        current.operands.drop_top(parameters);
        current.at = return_at;
        mem::swap(current, spare);
        self.depth += 1;
    }

    /// The uppermost frame that waits is current; false, with nothing changed, exactly if none waits.
    #[inline]
    pub(crate) fn give(&mut self, current: &mut Frame) -> bool
        requires { HasRoom self.old.locals_limit self.old.operands_limit current.old }
        ensures answer { IsTrue result ↔ (0 < length self.old.frames) }
        ensures back { IsTrue result → self.old
            ≡ with_frames self.new (current.new ∷ self.new.frames) }
        ensures room { HasRoom self.old.locals_limit self.old.operands_limit current.new }
        ensures unchanged { IsFalse result → self.new ≡ self.old }
        ensures stays { IsFalse result → current.new ≡ current.old }
    {
        if self.depth == 0 {
            return false;
        }
        self.depth -= 1;
        let waiting = &mut self.frames[self.depth];
        if waiting.operands.is_empty() {
            mem::swap(&mut current.locals, &mut waiting.locals);
            current.operands.clear();
            current.method = waiting.method;
            current.at = waiting.at;
        } else {
            mem::swap(current, waiting);
        }
        true
    }
}
