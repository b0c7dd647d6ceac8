//! How calls are served: one method for each group of them, and the choice between the groups.

ghost use Rattle.std.specs.Prelude.{◌≡◌, ◌≢◌, ◌≤◌, ℕ, List, length};
ghost use Rattle.nv_outside.specs.Seen.{Seen, input_seen, output_seen};
ghost use Rattle.run_definition.specs.Question.{asked};
ghost use Rattle.unix_definition.specs.Unix.{unix};
ghost use Rattle.unix_calls.specs.Serving.{parts, Serves, AsFault};

use crate::begin::begin;
use crate::console::write;
use crate::input::read;
use crate::numbers::{BEGIN, FSTAT, READ, WRITE};
use crate::quiet::answer;
use crate::unix::Unix;
use nv_events::{Call, IoFault, View};
use nv_outside::{Failed, Sink, Source};
use unix_system::status::fstat;

/// The bytes of the room for the argument block.
fn room_size() -> u32
    ensures { result ≡ 4096 }
{
    4096
}

/// An answer, or this fault in place of a failure.
fn as_fault(answer: Result<i32, Failed>, fault: IoFault) -> Result<i32, IoFault>
    ensures { AsFault fault answer result }
{
    match answer {
        Ok(value) => Ok(value),
        Err(_) => Err(fault),
    }
}

impl Unix {
    fn serve_begin<M: View>(&mut self, call: &Call, view: &mut M) -> Result<i32, IoFault>
        requires { call.now.number ≡ 0 }
        ensures served { (input out err : Seen (List ℕ))
            → Serves M.put_at (λ s. unix s (asked call.now (M.memory (M.content view.old))))
            call.now.number (asked call.now (M.memory (M.content view.old))).room
            (parts self.old input out err) (parts self.new input out err) (M.content view.old)
            (M.content view.new) result }
    {
        let size = room_size();
        Ok(begin(
            &mut self.heap,
            &self.args,
            &mut self.order,
            call,
            size,
            view,
        ))
    }

    fn serve_status<M: View>(&mut self, call: &Call, view: &mut M) -> Result<i32, IoFault>
        requires { call.now.number ≡ 8 }
        ensures served { (input out err : Seen (List ℕ))
            → Serves M.put_at (λ s. unix s (asked call.now (M.memory (M.content view.old))))
            call.now.number (asked call.now (M.memory (M.content view.old))).room
            (parts self.old input out err) (parts self.new input out err) (M.content view.old)
            (M.content view.new) result }
    {
        Ok(fstat(&self.disk, &self.opened, self.order, call.a0, call.a1, view))
    }

    fn serve_quiet<M: View>(&mut self, call: &Call, view: &M) -> Result<i32, IoFault>
        requires { (call.now.number ≢ 0) × (call.now.number ≢ 4) × (call.now.number ≢ 5)
            × (call.now.number ≢ 8) }
        ensures served { (input out err : Seen (List ℕ))
            → Serves M.put_at (λ s. unix s (asked call.now (M.memory (M.content view.now))))
            call.now.number (asked call.now (M.memory (M.content view.now))).room
            (parts self.old input out err) (parts self.new input out err) (M.content view.now)
            (M.content view.now) result }
    {
        Ok(answer(
            &mut self.disk,
            &mut self.opened,
            &mut self.heap,
            self.moment,
            call,
            view,
        ))
    }

    fn serve_read<M: View, S: Source>(
        &mut self,
        call: &Call,
        view: &mut M,
        source: &mut S,
    ) -> Result<i32, IoFault>
        requires { call.now.number ≡ 4 }
        ensures served { (out err : Seen (List ℕ))
            → Serves M.put_at (λ s. unix s (asked call.now (M.memory (M.content view.old))))
            call.now.number (asked call.now (M.memory (M.content view.old))).room
            (parts self.old (input_seen S.Source source.old) out err)
            (parts self.new (input_seen S.Source source.new) out err) (M.content view.old)
            (M.content view.new) result }
    {
        let answer = read(
            &mut self.disk,
            &mut self.opened,
            &mut self.ahead,
            self.most,
            call,
            view,
            source,
        );
        as_fault(answer, IoFault::ReadFault)
    }

    fn serve_write<M: View, O: Sink, E: Sink>(
        &mut self,
        call: &Call,
        view: &M,
        out: &mut O,
        err: &mut E,
    ) -> Result<i32, IoFault>
        requires { call.now.number ≡ 5 }
        ensures served { (input : Seen (List ℕ))
            → Serves M.put_at (λ s. unix s (asked call.now (M.memory (M.content view.now))))
            call.now.number (asked call.now (M.memory (M.content view.now))).room
            (parts self.old input (output_seen O.Sink out.old) (output_seen E.Sink err.old))
            (parts self.new input (output_seen O.Sink out.new) (output_seen E.Sink err.new))
            (M.content view.now) (M.content view.now) result }
    {
        let answer = write(&mut self.disk, &mut self.opened, call, view, out, err);
        as_fault(answer, IoFault::WriteFault)
    }

    /// The choice between the groups.
    fn serve_call<M: View, S: Source, O: Sink, E: Sink>(
        &mut self,
        call: &Call,
        view: &mut M,
        source: &mut S,
        out: &mut O,
        err: &mut E,
    ) -> Result<i32, IoFault>
        ensures served { Serves M.put_at (λ s.
            unix s (asked call.now (M.memory (M.content view.old)))) call.now.number
            (asked call.now (M.memory (M.content view.old))).room
            (parts self.old (input_seen S.Source source.old) (output_seen O.Sink out.old)
            (output_seen E.Sink err.old))
            (parts self.new (input_seen S.Source source.new) (output_seen O.Sink out.new)
            (output_seen E.Sink err.new)) (M.content view.old) (M.content view.new) result }
    {
        match call.number {
            BEGIN => self.serve_begin(call, view),
            READ => self.serve_read(call, view, source),
            WRITE => self.serve_write(call, view, out, err),
            FSTAT => self.serve_status(call, view),
            _ => self.serve_quiet(call, view),
        }
    }

    /// Answers a call of the program by the definition of the system.
    ///
    /// `source` is the program's input, of which at most 4,096 bytes are read ahead; `out` and `err` are its output and
    /// error output. It takes no memory.
    ///
    /// # Errors
    ///
    /// `ReadFault` where the source failed in this call, which reads, and `WriteFault` where a sink did in one that
    /// writes; no other part failed. The source then lost a front part of what the call reads and no more, and the sink
    /// has a front part of what it writes, but not all.
    pub fn serve<M: View, S: Source, O: Sink, E: Sink>(
        &mut self,
        call: &Call,
        view: &mut M,
        source: &mut S,
        out: &mut O,
        err: &mut E,
    ) -> Result<i32, IoFault>
        ensures served { Serves M.put_at (λ s.
            unix s (asked call.now (M.memory (M.content view.old)))) call.now.number
            (asked call.now (M.memory (M.content view.old))).room
            (parts self.old (input_seen S.Source source.old) (output_seen O.Sink out.old)
            (output_seen E.Sink err.old))
            (parts self.new (input_seen S.Source source.new) (output_seen O.Sink out.new)
            (output_seen E.Sink err.new)) (M.content view.old) (M.content view.new) result }
        ensures ahead { length self.new.ahead ≤ 4096 }
    {
        let answer = self.serve_call(call, view, source, out, err);
        self.ahead.is_short();
        answer
    }
}
