//! The code of a method, where lines are found by their offsets.
ghost use Rattle.std.specs.Prelude.{◌≡◌, ℕ, ◌<◌, ◌≤◌, ◌^◌, None, IfOk, IfSome, MatchOption, length, is_some, option_copied, replicate, true};
ghost use Rattle.jvm_definition.specs.Program.{line_in};
ghost use Rattle.jvm_definition.specs.Typing.{TypeFrame};
ghost use Rattle.jvm_type_inference.specs.Actions.{program_over, Enters};
ghost use Rattle.jvm_type_inference.specs.Flow.{IsTable};
ghost use Rattle.jvm_type_inference.specs.Frames.{type_frame, IsSized};

use crate::frame::Frame;
use jvm_definition::{Instruction, LinkedLine, LinkedMethod};
use std::alloc::{AllocError, Global};

/// A method among those of its program.
#[derive(Drop)]
pub struct Code<'a> {
    pub methods: &'a [LinkedMethod],
    pub method: &'a LinkedMethod,
    /// For each offset, the index of the line there.
    pub starts: Vec<Option<usize>>,
}

impl Code<'_> {
    /// The line at an offset.
    #[inline(always)]
    pub fn line_at(&self, at: usize) -> Option<&LinkedLine>
        requires { IsTable self.now.method.now.lines self.now.starts.items }
        ensures found { option_copied result ≡ line_in self.now.method.now.lines at }
        ensures within { IfSome result (λ _. at < length self.now.starts.items) }
    {
        let start = *self.starts.get(at)?;
        self.method.lines.as_slice().get(start?)
    }

    /// Whether there is a line at an offset.
    #[inline(always)]
    pub fn has_line(&self, at: usize) -> bool
        requires { IsTable self.now.method.now.lines self.now.starts.items }
        ensures found { result ≡ is_some (line_in self.now.method.now.lines at) }
        ensures within { result ≡ true → at < length self.now.starts.items }
    {
        self.line_at(at).is_some()
    }

    /// The frame after an instruction that is entered with another.
    pub fn behind(
        &self,
        alloc: Global,
        instruction: &Instruction,
        frame: &Frame,
    ) -> Result<Option<Frame>, AllocError>
        ensures enters { IfOk result (λ o. MatchOption o ((b : TypeFrame)
            → Enters (program_over self.now.methods.now) self.now.method.now instruction.now
            (type_frame frame.now) b
            → ⊥) (λ b. Enters (program_over self.now.methods.now)
            self.now.method.now instruction.now (type_frame frame.now) (type_frame b))) }
        ensures sized { IfOk result (λ o.
            IfSome o (λ b.
            IsSized self.now.method.now.locals self.now.method.now.stack frame.now
            → IsSized self.now.method.now.locals self.now.method.now.stack b)) }
    {
        let mut behind = frame.copied()?;
        if behind.step(alloc, self, instruction)? {
            Ok(Some(behind))
        } else {
            Ok(None)
        }
    }
}

/// The table of a method's code, for each offset the index of the first line there.
pub fn starts_of(alloc: Global, lines: &[LinkedLine]) -> Result<Vec<Option<usize>>, AllocError>
    ensures table { IfOk result (λ starts. IsTable lines.now starts.items) }
    ensures fits { IfOk result (λ starts. length starts.items ≤ 2 ^ 32) }
{
    let mut starts = no_starts(alloc, end_of(lines))?;
    let mut rest = lines;
    while let Some((line, others)) = rest.split_last() {
        let at = line.at as usize;
        starts[at] = Some(others.len());
        rest = others;
    }
    Ok(starts)
}

fn no_starts(alloc: Global, count: usize) -> Result<Vec<Option<usize>>, AllocError>
    ensures { IfOk result (λ starts. starts.items ≡ replicate count None) }
{
    vec![in alloc; None; count]
}

// The offset behind the last one at which there is a line.
fn end_of(lines: &[LinkedLine]) -> usize
    ensures behind { (at : ℕ) → result ≤ at → line_in lines.now at ≡ None }
    ensures fits { result ≤ 2 ^ 32 }
{
    let mut end = 0;
    let mut rest = lines;
    while let Some((line, others)) = rest.split_first() {
        end = end.max(line.at as usize + 1);
        rest = others;
    }
    end
}
