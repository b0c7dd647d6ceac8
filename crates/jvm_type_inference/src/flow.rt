//! Types are inferred (JVM Specification, 4.10.2.2): frames flow from block to block until they come to rest.
ghost use Rattle.std.specs.Prelude.{◌≡◌, ◌<◌, ◌≤◌, ◌^◌, ◌++◌, [], ◌∷◌, true, None, Some, IfOk, IfSome, IsSome, OnOk, MatchBool, length, slice_set, if◌then◌else◌, nat_lt};
ghost use Rattle.jvm_definition.specs.Program.{line_in, successors};
ghost use Rattle.jvm_definition.specs.declared.linked_line.LinkedLine.{LinkedLine};
ghost use Rattle.jvm_type_inference.specs.Actions.{program_over};
ghost use Rattle.jvm_type_inference.specs.Blocks.{AreBlocks, Closed, IsEndSized, before_in, offset_of};
ghost use Rattle.jvm_type_inference.specs.Flow as flow;
ghost use Rattle.jvm_type_inference.specs.declared.walked.Walked.TheVariants.{Ends};
ghost use Rattle.jvm_type_inference.specs.Frames.{type_frame, frame_at, IsSized};

use crate::admitted::Admitted;
use crate::code::Code;
use crate::frame::Frame;
use crate::meet::meet;
use crate::meeting::Meeting;
use crate::successors::successors_of;
use crate::walk::walk;
use crate::walked::Walked;
use std::alloc::{AllocError, Global};

/// The frames at the offsets where the blocks of a method's code begin, as far as they are known.
#[derive(Drop)]
pub struct Flow {
    pub frames: Vec<Option<Frame>>,
    /// Offsets of blocks that have a frame which they have not seen; some may stand twice.
    pub work: Vec<usize>,
}

impl Flow {
    /// Sets a frame, which an instruction below a limit has to see.
    #[inline(always)]
    fn put(&mut self, limit: usize, at: usize, frame: Frame) -> Result<(), AllocError>
        requires { at < length self.old.frames.items }
        ensures frames { OnOk result (self.new.frames.items
            ≡ slice_set self.old.frames.items at (Some frame)) }
        ensures work { OnOk result (self.new.work.items
            ≡ (if nat_lt at limit then self.old.work.items ++ at ∷ [] else self.old.work.items)) }
    {
        if at < limit {
            self.work.push(at)?;
        }
        self.frames[at] = Some(frame);
        Ok(())
    }

    /// A frame flows to the instruction at an offset; or it cannot.
    #[inline(always)]
    fn flow(
        &mut self,
        alloc: Global,
        code: &Code<'_>,
        limit: usize,
        frame: Frame,
        to: usize,
    ) -> Result<bool, AllocError>
        requires table { flow.IsTable code.now.method.now.lines code.now.starts.items }
        requires size { length self.old.frames.items ≡ length code.now.starts.items }
        requires formed { flow.AreFormed code.now.method.now.locals code.now.method.now.stack
            self.old.frames.items }
        requires frame { IsSized code.now.method.now.locals code.now.method.now.stack frame }
        ensures flows { IfOk result (λ good. good ≡ true
            → flow.Flows code.now.method.now limit (type_frame frame)
            to self.old.frames.items self.old.work.items self.new.frames.items
            self.new.work.items) }
        ensures below { IfOk result (λ good.
            flow.StaysBelow code.now.method.now (type_frame frame)
            to self.old.frames.items good self.new.frames.items) }
    {
        if !code.has_line(to) {
            return Ok(false);
        }
        match meet(alloc, &self.frames[to], frame)? {
            Meeting::Unchanged => Ok(true),
            Meeting::Changed(met) => {
                self.put(limit, to, met)?;
                Ok(true)
            }
            Meeting::Refused => Ok(false),
        }
    }

    // A frame flows to each of some instructions, and is left.
    #[inline(always)]
    fn flow_to_each(
        &mut self,
        alloc: Global,
        code: &Code<'_>,
        limit: usize,
        frame: &Frame,
        targets: &[u32],
    ) -> Result<bool, AllocError>
        requires table { flow.IsTable code.now.method.now.lines code.now.starts.items }
        requires size { length self.old.frames.items ≡ length code.now.starts.items }
        requires formed { flow.AreFormed code.now.method.now.locals code.now.method.now.stack
            self.old.frames.items }
        requires frame { IsSized code.now.method.now.locals code.now.method.now.stack frame.now }
        ensures flows { IfOk result (λ good. good ≡ true
            → flow.FlowsToAll code.now.method.now limit (type_frame frame.now)
            targets.now self.old.frames.items self.old.work.items self.new.frames.items
            self.new.work.items) }
        ensures below { IfOk result (λ good.
            flow.AllStayBelow code.now.method.now (type_frame frame.now)
            targets.now self.old.frames.items good self.new.frames.items) }
    {
        for target in targets {
            let copy = frame.copied()?;
            if !self.flow(alloc, code, limit, copy, *target as usize)? {
                return Ok(false);
            }
        }
        Ok(true)
    }

    // A frame flows to each of some instructions, to the last of which it is moved.
    #[inline(always)]
    fn flow_to_all(
        &mut self,
        alloc: Global,
        code: &Code<'_>,
        limit: usize,
        frame: Frame,
        targets: &[u32],
    ) -> Result<bool, AllocError>
        requires table { flow.IsTable code.now.method.now.lines code.now.starts.items }
        requires size { length self.old.frames.items ≡ length code.now.starts.items }
        requires formed { flow.AreFormed code.now.method.now.locals code.now.method.now.stack
            self.old.frames.items }
        requires frame { IsSized code.now.method.now.locals code.now.method.now.stack frame }
        ensures flows { IfOk result (λ good. good ≡ true
            → flow.FlowsToAll code.now.method.now limit (type_frame frame)
            targets.now self.old.frames.items self.old.work.items self.new.frames.items
            self.new.work.items) }
        ensures below { IfOk result (λ good.
            flow.AllStayBelow code.now.method.now (type_frame frame)
            targets.now self.old.frames.items good self.new.frames.items) }
    {
        let Some((last, others)) = targets.split_last() else {
            return Ok(true);
        };
        if !self.flow_to_each(alloc, code, limit, &frame, others)? {
            return Ok(false);
        }
        self.flow(alloc, code, limit, frame, *last as usize)
    }

    /// A frame flows to where the instruction at an offset goes.
    #[inline(always)]
    fn leave(
        &mut self,
        alloc: Global,
        code: &Code<'_>,
        limit: usize,
        frame: Frame,
        at: usize,
    ) -> Result<bool, AllocError>
        requires table { flow.IsTable code.now.method.now.lines code.now.starts.items }
        requires size { length self.old.frames.items ≡ length code.now.starts.items }
        requires formed { flow.AreFormed code.now.method.now.locals code.now.method.now.stack
            self.old.frames.items }
        requires frame { IsSized code.now.method.now.locals code.now.method.now.stack frame }
        ensures flows { IfOk result (λ good. (line : LinkedLine)
            → line_in code.now.method.now.lines at ≡ Some line → good ≡ true
            → flow.FlowsToAll code.now.method.now limit (type_frame frame) (successors line)
            self.old.frames.items self.old.work.items self.new.frames.items
            self.new.work.items) }
        ensures below { IfOk result (λ good. (line : LinkedLine)
            → line_in code.now.method.now.lines at ≡ Some line
            → flow.AllStayBelow code.now.method.now (type_frame frame) (successors line)
            self.old.frames.items good self.new.frames.items) }
    {
        let Some(line) = code.line_at(at) else {
            return Ok(false);
        };
        let successors = successors_of(alloc, line)?;
        self.flow_to_all(alloc, code, limit, frame, successors.as_slice())
    }

    /// Looks at the block that begins at an offset, where there is one with a frame.
    fn visit(
        &mut self,
        alloc: Global,
        code: &Code<'_>,
        before: &[Option<usize>],
        limit: usize,
        at: usize,
    ) -> Result<bool, AllocError>
        requires table { flow.IsTable code.now.method.now.lines code.now.starts.items }
        requires parts { AreBlocks code.now.method.now before.now }
        requires size { length self.old.frames.items ≡ length code.now.starts.items }
        requires formed { flow.AreFormed code.now.method.now.locals code.now.method.now.stack
            self.old.frames.items }
        requires closed { Closed before.now limit }
        requires admitted { at < limit }
        ensures visits { IfOk result (λ good. good ≡ true
            → flow.Visits (program_over code.now.methods.now) code.now.method.now before.now
            limit at self.old.frames.items self.old.work.items self.new.frames.items
            self.new.work.items) }
        ensures below { IfOk result (λ good.
            flow.KeepsBelow (program_over code.now.methods.now)
            code.now.method.now limit self.old.frames.items good self.new.frames.items) }
    {
        let Some(walked) = self.walked(alloc, code, before, at)? else {
            return Ok(true);
        };
        match walked {
            Walked::Fails(_at) => Ok(false),
            Walked::Ends(last, behind) => self.leave(alloc, code, limit, behind, last),
        }
    }

    // What comes of a walk through the block that begins at an offset, where there is one with a frame.
    #[inline(always)]
    fn walked(
        &self,
        alloc: Global,
        code: &Code<'_>,
        before: &[Option<usize>],
        at: usize,
    ) -> Result<Option<Walked>, AllocError>
        requires table { flow.IsTable code.now.method.now.lines code.now.starts.items }
        requires parts { AreBlocks code.now.method.now before.now }
        requires size { length self.now.frames.items ≡ length code.now.starts.items }
        requires formed { flow.AreFormed code.now.method.now.locals code.now.method.now.stack
            self.now.frames.items }
        ensures walked { IfOk result (flow.IsWalkFrom (program_over code.now.methods.now)
            code.now.method.now before.now (frame_at self.now.frames.items) at) }
        ensures within { IfOk result (λ o. IfSome o (λ w.
            offset_of w < length code.now.starts.items)) }
        ensures sized { IfOk result (λ o. IfSome o (IsEndSized code.now.method.now.locals
            code.now.method.now.stack)) }
    {
        if !begins_block(code, before, at) {
            return Ok(None);
        }
        match &self.frames[at] {
            Some(frame) => Ok(Some(walk(alloc, code, before, at, frame)?)),
            None => Ok(None),
        }
    }

    /// Looks at blocks until the frames rest.
    fn settle(
        &mut self,
        alloc: Global,
        code: &Code<'_>,
        before: &[Option<usize>],
        limit: usize,
    ) -> Result<bool, AllocError>
        requires table { flow.IsTable code.now.method.now.lines code.now.starts.items }
        requires parts { AreBlocks code.now.method.now before.now }
        requires size { length self.old.frames.items ≡ length code.now.starts.items }
        requires closed { Closed before.now limit }
        requires keeps { flow.Keeps (program_over code.now.methods.now) code.now.method.now
            before.now limit self.old.frames.items self.old.work.items }
        ensures settles { IfOk result (λ good. good ≡ true
            → flow.Settles (program_over code.now.methods.now) code.now.method.now before.now
            limit self.old.frames.items self.new.frames.items) }
        ensures below { IfOk result (λ good.
            flow.KeepsBelow (program_over code.now.methods.now)
            code.now.method.now limit self.old.frames.items good self.new.frames.items) }
        ensures done { IfOk result (λ good. good ≡ true → self.new.work.items ≡ []) }
    {
        while let Some(at) = self.work.pop() {
            if !self.visit(alloc, code, before, limit, at)? {
                return Ok(false);
            }
        }
        Ok(true)
    }

    /// Admits the block that begins at an offset, if one does.
    fn admit(
        &mut self,
        alloc: Global,
        code: &Code<'_>,
        before: &[Option<usize>],
        at: usize,
    ) -> Result<Admitted, AllocError>
        requires table { flow.IsTable code.now.method.now.lines code.now.starts.items }
        requires parts { AreBlocks code.now.method.now before.now }
        requires size { length self.old.frames.items ≡ length code.now.starts.items }
        requires rests { flow.Rests (program_over code.now.methods.now) code.now.method.now
            before.now at self.old.frames.items }
        requires done { self.old.work.items ≡ [] }
        requires within { at < length code.now.starts.items }
        ensures admits { IfOk result (flow.IsAdmission (program_over code.now.methods.now)
            code.now.method.now before.now at self.old.frames.items self.new.frames.items
            self.new.work.items) }
        ensures within { IfOk result (flow.IsFaultWithin (length code.now.starts.items)) }
    {
        let Some(walked) = self.walked(alloc, code, before, at)? else {
            return Ok(Admitted::UpTo(at + 1));
        };
        match walked {
            Walked::Fails(fault) => Ok(Admitted::FaultAt(fault)),
            Walked::Ends(last, behind) => self.admit_walked(alloc, code, before, at, last, behind),
        }
    }

    // Admits the block that begins at an offset, where it leads to a frame behind its last instruction.
    fn admit_walked(
        &mut self,
        alloc: Global,
        code: &Code<'_>,
        before: &[Option<usize>],
        at: usize,
        last: usize,
        behind: Frame,
    ) -> Result<Admitted, AllocError>
        requires table { flow.IsTable code.now.method.now.lines code.now.starts.items }
        requires parts { AreBlocks code.now.method.now before.now }
        requires size { length self.old.frames.items ≡ length code.now.starts.items }
        requires rests { flow.Rests (program_over code.now.methods.now) code.now.method.now
            before.now at self.old.frames.items }
        requires done { self.old.work.items ≡ [] }
        requires walk { flow.IsWalkFrom (program_over code.now.methods.now)
            code.now.method.now before.now (frame_at self.old.frames.items) at
            (Some (Ends last behind)) }
        requires frame { IsSized code.now.method.now.locals code.now.method.now.stack behind }
        requires within { last < length code.now.starts.items }
        ensures admits { IfOk result (flow.IsAdmission (program_over code.now.methods.now)
            code.now.method.now before.now at self.old.frames.items self.new.frames.items
            self.new.work.items) }
        ensures within { IfOk result (flow.IsFaultWithin (length code.now.starts.items)) }
    {
        if !self.leave(alloc, code, last + 1, behind, last)? {
            return Ok(Admitted::FaultAt(last));
        }
        if !self.settle(alloc, code, before, last + 1)? {
            return Ok(Admitted::FaultAt(last));
        }
        Ok(Admitted::UpTo(last + 1))
    }

    /// Admits the blocks in the order of their offsets. The first instruction with which no typing is left is at fault.
    pub fn admit_all(
        &mut self,
        alloc: Global,
        code: &Code<'_>,
        before: &[Option<usize>],
    ) -> Result<Option<u32>, AllocError>
        requires table { flow.IsTable code.now.method.now.lines code.now.starts.items }
        requires parts { AreBlocks code.now.method.now before.now }
        requires size { length self.old.frames.items ≡ length code.now.starts.items }
        requires fits { length code.now.starts.items ≤ 2 ^ 32 }
        requires rests { flow.Rests (program_over code.now.methods.now) code.now.method.now
            before.now 0 self.old.frames.items }
        requires done { self.old.work.items ≡ [] }
        ensures verdict { IfOk result (flow.AreBlockVerdict (program_over code.now.methods.now)
            code.now.method.now before.now (length code.now.starts.items)
            self.new.frames.items) }
        ensures formed { IfOk result (λ verdict. verdict ≡ None
            → flow.AreFormed code.now.method.now.locals code.now.method.now.stack
            self.new.frames.items) }
        ensures size { IfOk result (λ verdict. verdict ≡ None
            → length self.new.frames.items ≡ length code.now.starts.items) }
    {
        let mut at = 0;
        while at < code.starts.len() {
            let admitted = self.admit(alloc, code, before, at)?;
            match admitted {
                Admitted::FaultAt(fault) => return Ok(Some(fault as u32)),
                Admitted::UpTo(next) => at = next,
            }
        }
        Ok(None)
    }
}

// Whether a block begins at an offset.
#[inline(always)]
fn begins_block(code: &Code<'_>, before: &[Option<usize>], at: usize) -> bool
    requires { flow.IsTable code.now.method.now.lines code.now.starts.items }
    ensures begins { MatchBool result
        ((before_in before.now at ≡ None) × IsSome (line_in code.now.method.now.lines at))
        ((line : LinkedLine) → line_in code.now.method.now.lines at ≡ Some line
        → before_in before.now at ≡ None → ⊥) }
    ensures within { result ≡ true → at < length code.now.starts.items }
{
    !matches!(before.get(at), Some(Some(_))) && code.has_line(at)
}
