ghost use Rattle.std.specs.Prelude.{◌≡◌, ℕ, List, [], ◌∷◌, length, drop, Bool, false, Option, Some, None, MatchOption};
ghost use Rattle.run_definition.specs.Question.{Question};
ghost use Rattle.run_definition.specs.Answer.{Answer, next_answer};
ghost use Rattle.nv_events.specs.Replies.{answer_of, answers_from};
ghost use Rattle.nv_events.specs.Serving.{Counts, none_counted};

use crate::call_table::places;
use crate::patch::{fits, lay};
use crate::reply::Reply;
use crate::server::Server;
use crate::view::View;
use run_definition::{Call, IoFault};
use std::marker::Model;

/// A server that gives replies which were written down beforehand, one after the other.
///
/// A contract sees it as the list of the answers that are left.
#[derive(Debug, Drop)]
pub struct Scripted {
    replies: Vec<Reply>,
    next: usize,
}

impl Model for Scripted {
    ghost use Rattle.std.specs.Prelude.{List};
    ghost use Rattle.run_definition.specs.Answer.{Answer};

    ghost Value = { List Answer };

    ghost use Rattle.nv_events.specs.Replies.{answers_from};

    ghost view = { λ s. answers_from s.replies.items s.next };
}

impl Scripted {
    /// A server of these replies, in their order. It takes no memory.
    pub fn new(replies: Vec<Reply>) -> Scripted
        ensures { result ≡ answers_from replies.items 0 }
    {
        Scripted { replies, next: 0 }
    }

    /// The next reply.
    fn first(&self) -> Option<&Reply>
        ensures { MatchOption result (self.now ≡ []) (λ r. self.now
            ≡ answer_of r.now ∷ drop 1 self.now) }
    {
        self.replies.get(self.next)
    }

    /// Passes the next reply.
    fn pass(&mut self)
        ensures { self.new ≡ drop 1 self.old }
    {
        if self.next < self.replies.len() {
            self.next += 1;
        }
    }

    /// Gives no further reply.
    fn close(&mut self)
        ensures { self.new ≡ [] }
    {
        self.next = self.replies.len();
    }
}

/// It answers the replies in their order. It has no answer exactly if they are used up or the next patch does not fit the
/// call's room, and from then on.
impl Server for Scripted {
    ghost State = { List Answer };

    ghost reply = { next_answer };

    ghost told = { λ s. Some s };

    ghost goes = { λ s q a t. next_answer s q ≡ Some (a, t) };

    ghost held = { λ s q t. (next_answer s q ≡ None) × (t ≡ []) };

    ghost fell = { λ s q t. ⊥ };

    ghost ready = { λ s. false };

    ghost usable = { λ s. Unit {0} };

    ghost faults = { λ s. none_counted };

    ghost keeps = { λ s t. Unit {0} };

    fn serve<M: View>(&mut self, call: &Call, view: &mut M) -> Result<Option<i32>, IoFault> {
        let room = places(call).room;
        match self.first() {
            Some(reply) if fits(&reply.patch, room, view) => {
                lay(&reply.patch, room, view);
                let value = reply.value;
                self.pass();
                Ok(Some(value))
            }
            _ => {
                self.close();
                Ok(None)
            }
        }
    }

    fn laws(&self) {}

    ghost keeps_itself = { λ s. tt };

    ghost keeps_on = { λ r s t a b. tt };
}
