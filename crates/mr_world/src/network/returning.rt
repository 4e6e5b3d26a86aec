//! Replies that reach their proxies, and requests that are given up.
ghost use Rattle.std.specs.Prelude.{◌≡◌, ◌++◌, ◌≤◌};
ghost use Rattle.mr_proxy.specs.Answer.{AnswerView};
ghost use Rattle.mr_proxy.specs.declared.taken.Taken.{Taken};
ghost use Rattle.mr_world.specs.declared.event.Event.TheVariants.{Return, GiveUp};
ghost use Rattle.mr_world.specs.Network.{IsReady, DoesEvent};
ghost use Rattle.mr_world.specs.Steps.{answered, answered_by, note_of};
ghost use Rattle.mr_world.specs.Tracked.{IsUnanswered};

use crate::network::Network;
use crate::note::Note;
use mr_history::{Entry, History, OpId};
use mr_node::session::is_silent;
use mr_proxy::{Answer, Taken, WorldError};

/// Appends an answer, unless the client wants none.
fn tell(history: &mut History, answer: Answer)
    requires unanswered { IsUnanswered history.old.entries answer.op }
    requires spare { 1 ≤ history.old.spare }
    ensures { history.new.entries ≡ history.old.entries ++ answered answer }
{
    if !is_silent(answer.request()) {
        let op = answer.op();
        let reply = answer.into_reply();
        history.push(Entry::Answered { op, reply });
    }
}

/// Appends what a reply that came back leads to, and tells what that is.
fn note_taken(history: &mut History, taken: Taken) -> Note
    requires unanswered { (answer : AnswerView) → taken ≡ Taken.Answered answer
        → IsUnanswered history.old.entries answer.op }
    requires spare { 1 ≤ history.old.spare }
    ensures note { result ≡ note_of taken }
    ensures history { history.new.entries ≡ history.old.entries ++ answered_by taken }
{
    match taken {
        Taken::Waiting => Note::Waiting,
        Taken::Stranger(_) => Note::Stranger,
        Taken::Answered(answer) => {
            let op = answer.op();
            tell(history, answer);
            Note::Answered { op }
        }
    }
}

impl Network {
    /// The proxy that sent the message takes the reply.
    pub(crate) fn take_back(&mut self, number: usize) -> Result<Note, WorldError>
        requires { IsReady self.old }
        ensures { DoesEvent self.old (Return number) result self.new }
    {
        if number >= self.replies.len() {
            return Err(WorldError::NoSuchMessage);
        }
        self.history.reserve(1)?;
        let delivery = &self.replies[number];
        let id = self.sent[delivery.message].sheet.id;
        let reply = delivery.reply.copy()?;
        let proxy = &mut self.proxies[id.op.proxy as usize];
        let taken = proxy.take_reply(id, reply);
        Ok(note_taken(&mut self.history, taken))
    }

    /// The request leaves with what its legs came to so far.
    pub(crate) fn give_up(&mut self, op: OpId) -> Result<Note, WorldError>
        requires { IsReady self.old }
        ensures { DoesEvent self.old (GiveUp op) result self.new }
    {
        let place = op.proxy as usize;
        if place >= self.proxies.len() || !self.proxies[place].is_outstanding(op) {
            return Err(WorldError::NoSuchOp);
        }
        self.history.reserve(1)?;
        let proxy = &mut self.proxies[place];
        let Ok(answer) = proxy.give_up(op) else {
            return Err(WorldError::NoSuchOp);
        };
        tell(&mut self.history, answer);
        Ok(Note::Answered { op })
    }
}
