ghost use Rattle.std.specs.Prelude.{◌≡◌, ◌≢◌, ℕ, Bool, Option, Some, None, Ok, OnOk, IsTrue};
ghost use Rattle.run_definition.specs.Question.{Question, asked};
ghost use Rattle.run_definition.specs.Answer.{Answer};
ghost use Rattle.nv_events.specs.Serving.{Serves, Causes, Counts, NoneFalls};

use crate::view::View;
use run_definition::{Call, IoFault};

/// What answers the calls of a program.
///
/// A server may tell its state, as plain data; then its answers are those of the definition `reply`. Every server, told or not,
/// says how a call changed it: `goes` where it answered, `held` where it had no answer, `fell` where the outside failed.
pub trait Server {
    /// The kind of state, with the answer to a question and the next state.
    ghost State: { Type 0 };

    ghost reply: { State → Question → Option (Answer × State) };

    /// The state, where the server tells it.
    ghost told: { Self → Option State };

    /// The server before a call, the question, the answer, and the server after it.
    ghost goes: { Self → Question → Answer → Self → Type 0 };

    /// The same of a call to which there was no answer.
    ghost held: { Self → Question → Self → Type 0 };

    /// The same of a call that the outside failed.
    ghost fell: { Self → Question → Self → Type 0 };

    /// There is always an answer.
    ghost ready: { Self → Bool };

    /// The server may be called: no call of it has failed yet.
    ghost usable: { Self → Type 0 };

    /// How often the program's input, output and error output failed.
    ghost faults: { Self → Counts };

    /// What each call keeps of the parts that the server borrows.
    ghost keeps: { Self → Self → Type 0 };

    /// Answers a call of the program, over its memory.
    ///
    /// The answer's bytes are put into the call's room, one after the other from its start, and the view is not changed otherwise.
    /// `Ok(None)` says that no answer is there, and leaves the view as it was. A ReadFault comes only if the program's input
    /// failed in this call, a WriteFault only if its output or error output did. Call 1, which ends the program, is not
    /// asked.
    fn serve<M: View>(&mut self, call: &Call, view: &mut M) -> Result<Option<i32>, IoFault>
        requires not_exit { call.now.number ≢ 1 }
        requires usable { usable self.old }
        ensures served { Serves goes held fell M.put_at
            (asked call.now (M.memory (M.content view.old))) self.old self.new
            (M.content view.old) (M.content view.new) result }
        ensures causes { Causes (faults self.old) (faults self.new) result }
        ensures none_falls { NoneFalls (faults self.old) (faults self.new) }
        ensures ready { IsTrue (ready self.old) → result ≢ Ok None }
        ensures ready_stays { ready self.new ≡ ready self.old }
        ensures usable_stays { OnOk result (usable self.new) }
        ensures keeps { keeps self.old self.new };

    /// What holds of every server: if its state is told, an answer is the definition's, and the state after it is told. It does nothing: its
    /// contract is the law.
    fn laws(&self)
        ensures goes_as_told { (s t : Self) (q : Question) (a : Answer) (k : State)
            → told s ≡ Some k → goes s q a t
            → ((l : State) × (reply k q ≡ Some (a, l)) × (told t ≡ Some l)) }
        ensures held_as_told { (s t : Self) (q : Question) (k : State) → told s ≡ Some k
            → held s q t → reply k q ≡ None };

    ghost keeps_itself: { (s : Self) → keeps s s };

    ghost keeps_on: { (r s t : Self) → keeps r s → keeps s t → keeps r t };
}
