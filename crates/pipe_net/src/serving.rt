ghost use Rattle.std.specs.Prelude.{◌≡◌, ◌≤◌, length};
ghost use Rattle.run_definition.specs.Question.{asked};
ghost use Rattle.nv_outside.specs.Seen.{input_seen, output_seen};
ghost use Rattle.unix_definition.specs.Unix.{unix};
ghost use Rattle.unix_calls.specs.Serving.{parts, Serves};
ghost use Rattle.pipe_net.specs.Ports.{OtherOutput, kept_seen, output_at};
ghost use Rattle.pipe_net.specs.Views.{errors_kept, pipe_kept};

use crate::dropped::Dropped;
use crate::errors::Errors;
use crate::outlet::Outlet;
use crate::pipe::Pipe;
use nv_events::{Call, IoFault, View};
use nv_outside::{Sink, Source};
use unix_calls::Unix;

/// Answers a call of a stage's program by the definition of its system, whose output goes there.
pub(crate) fn serve_at<M: View, I: Source, O: Sink>(
    outlet: Outlet,
    system: &mut Unix,
    input: &mut I,
    sink: &mut O,
    behind: &mut Pipe,
    errors: &mut Errors,
    call: &Call,
    view: &mut M,
) -> Result<i32, IoFault>
    ensures served { Serves M.put_at (λ s.
        unix s (asked call.now (M.memory (M.content view.old)))) call.now.number
        (asked call.now (M.memory (M.content view.old))).room
        (parts system.old (input_seen I.Source input.old)
        (output_at outlet (output_seen O.Sink sink.old) (pipe_kept behind.old))
        (kept_seen (errors_kept errors.old)))
        (parts system.new (input_seen I.Source input.new)
        (output_at outlet (output_seen O.Sink sink.new) (pipe_kept behind.new))
        (kept_seen (errors_kept errors.new)))
        (M.content view.old) (M.content view.new) result }
    ensures others { OtherOutput outlet (output_seen O.Sink sink.old) (pipe_kept behind.old)
        (output_seen O.Sink sink.new) (pipe_kept behind.new) }
    ensures short { length system.new.ahead ≤ 4096 }
{
    match outlet {
        Outlet::Sink => system.serve(call, view, input, sink, errors),
        Outlet::Pipe => system.serve(call, view, input, behind, errors),
        Outlet::Nowhere => system.serve(call, view, input, &mut Dropped, errors),
    }
}
