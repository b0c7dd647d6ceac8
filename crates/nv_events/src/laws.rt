//! What holds of all runs. Each call here does nothing: its contract is the law.

ghost use Rattle.run_definition.specs.Answer.{next_answer};
ghost use Rattle.nv_events.specs.Laws.{LongerRuns, LeavesFurtherAnswers, GivesFitting, RunsByAnswers, LeadsOverBoth};

use crate::machine::Machine;
use crate::server::Server;

/// A run of n + m turns is the run of n, and where that goes on, the run of m from where it is. So a run that has ended stays
/// as it is for a larger bound, and its questions are the first ones of each longer run.
pub fn runs_add<M: Machine, V: Server>()
    ensures { LongerRuns M.turn V.reply }
{}

/// The same over lists of answers. A run over a list that does not wait is the same over that list and more, which are left over.
pub fn runs_over_answers<M: Machine>()
    ensures longer { LongerRuns M.turn next_answer }
    ensures more { LeavesFurtherAnswers M.turn }
{}

/// If a kind of system state gives no answer that does not fit, each run over it is the run over a list of answers, all of
/// which are used.
pub fn runs_by_answers<M: Machine, V: Server>()
    requires fitting { GivesFitting V.reply }
    ensures { RunsByAnswers M.turn V.reply }
{}

/// A server that went over some questions and answers, and then over others, went over all of them.
pub fn leads_join<V: Server>()
    ensures { LeadsOverBoth V.goes }
{}
