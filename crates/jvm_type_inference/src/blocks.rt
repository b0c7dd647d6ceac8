//! The basic blocks of a method's code: straight code that is entered at its first instruction alone.
ghost use Rattle.std.specs.Prelude.{◌≡◌, ◌<◌, suc, true, false, None, Some, IfOk, IsSome, All, if◌then◌else◌, length, replicate, slice_set};
ghost use Rattle.jvm_definition.specs.Program.{line_in, successors};
ghost use Rattle.jvm_type_inference.specs.Blocks.{AreBlocks};
ghost use Rattle.jvm_type_inference.specs.Flow.{IsTable};
ghost use Rattle.jvm_type_inference.specs.Marks as marks;

use crate::code::Code;
use crate::successors::successors_of;
use jvm_definition::LinkedLine;
use std::alloc::{AllocError, Global};

/// For each offset, that of the instruction inside the same block that is before it.
pub fn blocks_of(alloc: Global, code: &Code<'_>) -> Result<Vec<Option<usize>>, AllocError>
    requires { IsTable code.now.method.now.lines code.now.starts.items }
    ensures parts { IfOk result (λ before. AreBlocks code.now.method.now before.items) }
    ensures size { IfOk result (λ before. length before.items ≡ length code.now.starts.items) }
{
    let mut marks = Marks::new(alloc, code.starts.len())?;
    let mut latest = None;
    for at in 0..code.starts.len() {
        if code.has_line(at) {
            marks.join(alloc, code, latest, at)?;
            latest = Some(at);
        }
    }
    marks.end(alloc, code, latest)
}

/// What is known of the offsets.
#[derive(Drop)]
struct Marks {
    /// Whether a block begins there.
    leaders: Vec<bool>,
    /// The offset of the instruction inside the same block that is before it.
    before: Vec<Option<usize>>,
}

impl Marks {
    fn new(alloc: Global, count: usize) -> Result<Marks, AllocError>
        ensures leaders { IfOk result (λ m. m.leaders.items ≡ replicate count false) }
        ensures before { IfOk result (λ m. m.before.items ≡ replicate count None) }
    {
        let leaders = vec![in alloc; false; count]?;
        let before = vec![in alloc; None; count]?;
        Ok(Marks { leaders, before })
    }

    // The next instruction is at an offset.
    fn join(
        &mut self,
        alloc: Global,
        code: &Code<'_>,
        latest: Option<usize>,
        at: usize,
    ) -> Result<(), AllocError>
        requires table { IsTable code.now.method.now.lines code.now.starts.items }
        requires marked { marks.AreMarked code.now.method.now self.old.leaders.items
            self.old.before.items latest at }
        requires there { IsSome (line_in code.now.method.now.lines at) }
        requires within { at < length self.old.before.items }
        ensures marked { IfOk result (λ _. marks.AreMarked code.now.method.now
            self.new.leaders.items self.new.before.items (Some at) (suc at)) }
        ensures size { IfOk result (λ _. length self.new.before.items
            ≡ length self.old.before.items) }
    {
        let Some(x) = latest else {
            return Ok(());
        };
        let Some(line) = code.line_at(x) else {
            return Ok(());
        };
        let successors = successors_of(alloc, line)?;
        if goes_to(line, successors.as_slice(), at) {
            self.put(x, at);
        } else {
            self.lead(successors.as_slice());
        }
        Ok(())
    }

    // There is no other instruction.
    fn end(
        self,
        alloc: Global,
        code: &Code<'_>,
        latest: Option<usize>,
    ) -> Result<Vec<Option<usize>>, AllocError>
        requires table { IsTable code.now.method.now.lines code.now.starts.items }
        requires marked { marks.AreMarked code.now.method.now self.leaders.items
            self.before.items latest (length self.before.items) }
        requires size { length self.before.items ≡ length code.now.starts.items }
        ensures parts { IfOk result (λ before. AreBlocks code.now.method.now before.items) }
        ensures size { IfOk result (λ before. length before.items
            ≡ length code.now.starts.items) }
    {
        let mut marks = self;
        let Some(x) = latest else {
            return Ok(marks.before);
        };
        let Some(line) = code.line_at(x) else {
            return Ok(marks.before);
        };
        let successors = successors_of(alloc, line)?;
        marks.lead(successors.as_slice());
        Ok(marks.before)
    }

    // The block of one instruction goes on at another, if none begins there.
    #[inline(always)]
    fn put(&mut self, latest: usize, at: usize)
        requires size { length self.old.leaders.items ≡ length self.old.before.items }
        requires within { at < length self.old.before.items }
        ensures leaders { self.new.leaders.items ≡ self.old.leaders.items }
        ensures before { self.new.before.items
            ≡ (if marks.leads self.old.leaders.items at then self.old.before.items
            else slice_set self.old.before.items at (Some latest)) }
    {
        if !self.leaders[at] {
            self.before[at] = Some(latest);
        }
    }

    // Blocks begin at some offsets, as far as they are offsets of the code.
    #[inline(always)]
    fn lead(&mut self, targets: &[u32])
        requires size { length self.old.leaders.items ≡ length self.old.before.items }
        ensures leads { marks.Leads self.old.leaders.items self.old.before.items
            self.new.leaders.items self.new.before.items }
        ensures all { All (marks.IsLeader self.new.leaders.items) targets.now }
    {
        for target in targets {
            self.lead_one(*target as usize);
        }
    }

    #[inline(always)]
    fn lead_one(&mut self, at: usize)
        requires size { length self.old.leaders.items ≡ length self.old.before.items }
        ensures leads { marks.Leads self.old.leaders.items self.old.before.items
            self.new.leaders.items self.new.before.items }
        ensures is { marks.IsLeader self.new.leaders.items at }
    {
        if at < self.leaders.len() {
            self.leaders[at] = true;
            self.before[at] = None;
        }
    }
}

// Whether an instruction goes on to the one at an offset, and nowhere else.
#[inline(always)]
fn goes_to(line: &LinkedLine, successors: &[u32], at: usize) -> bool
    ensures { result ≡ true → marks.GoesTo line.now successors.now at }
{
    line.next as usize == at && successors.len() == 1 && successors[0] as usize == at
}
