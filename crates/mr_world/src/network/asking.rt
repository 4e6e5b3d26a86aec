//! Requests that clients send to proxies.
ghost use Rattle.std.specs.Prelude.{◌≡◌, ◌≢◌, ◌+◌, ◌≤◌, ◌++◌, length, map, slice_get, Some, None, All, IfOk, IfErr, OnOk, MatchOption, vec_len, vec_capacity};
ghost use Rattle.mr_text.specs.declared.request.Request.{Request};
ghost use Rattle.mr_proxy.specs.Issue.{sheets_of, refusal_of};
ghost use Rattle.mr_proxy.specs.declared.world_error.WorldError.TheVariants.{IssueRefused, OutOfMemory};
ghost use Rattle.mr_world.specs.declared.event.Event.TheVariants.{Client};
ghost use Rattle.mr_world.specs.Network.{IsReady, DoesEvent, HasNumber, message_by};

use crate::message::Message;
use crate::network::Network;
use crate::note::Note;
use crate::numbers::NodeNumbers;
use mr_history::{Entry, History};
use mr_proxy::laws::next_op_is_new;
use mr_proxy::{Issued, Leg, ProxyCore, WorldError, issue_copy};
use mr_text::Request;
use mr_text::laws::request_is_valid;

/// Sends legs for which there is room.
fn send(sent: &mut Vec<Message>, numbers: &NodeNumbers, legs: Vec<Leg>)
    requires room { vec_len sent.old + length legs.items ≤ vec_capacity sent.old }
    requires numbered { All (HasNumber numbers.now) legs.items }
    ensures { sent.new.items ≡ sent.old.items ++ map (message_by numbers.now) legs.items }
{
    for leg in legs {
        let sheet = leg.into_sheet();
        let pool = sheet.pool_number();
        let node = numbers.number(pool, sheet.node);
        sent.push_reserved(Message { sheet, node });
    }
}

/// Makes room for the messages and the entry of a request that the proxy accepts, and tells how many messages there are.
fn make_room(
    sent: &mut Vec<Message>,
    history: &mut History,
    proxy: &ProxyCore,
    reading: u64,
    request: &Request,
) -> Result<usize, WorldError>
    requires { request.now ≢ Request.Quit }
    ensures sent { sent.new.items ≡ sent.old.items }
    ensures history { history.new.entries ≡ history.old.entries }
    ensures accepted { OnOk result (refusal_of proxy.now ≡ None) }
    ensures count { IfOk result (λ count. count ≡ length (sheets_of proxy.now reading request.now)) }
    ensures room { IfOk result (λ count. vec_len sent.new + count ≤ vec_capacity sent.new) }
    ensures spare { OnOk result (1 ≤ history.new.spare) }
    ensures refused { IfErr result
        (λ e. MatchOption (refusal_of proxy.now) (e ≡ OutOfMemory) (λ refusal. e ≡ IssueRefused refusal)) }
{
    let count = match proxy.would_issue(reading, request) {
        Ok(count) => count as usize,
        Err(refusal) => return Err(WorldError::IssueRefused(refusal)),
    };
    sent.reserve(count)?;
    history.reserve(1)?;
    Ok(count)
}

impl Network {
    /// A client sends a request. A quit does nothing.
    pub(crate) fn ask(&mut self, number: u32, request: Request) -> Result<Note, WorldError>
        requires { IsReady self.old }
        ensures { DoesEvent self.old (Client number request) result self.new }
    {
        let Some(reading) = self.readings.get(number as usize) else {
            return Err(WorldError::NoSuchProxy);
        };
        if let Request::Quit = request {
            return Ok(Note::Nothing);
        }
        self.issue(number, reading, request)
    }

    /// A proxy accepts a request at its clock's reading, and sends a message for each leg.
    fn issue(&mut self, number: u32, reading: u64, request: Request) -> Result<Note, WorldError>
        requires ready { IsReady self.old }
        requires clock { slice_get self.old.world.readings.standing number ≡ Some reading }
        requires no_quit { request ≢ Request.Quit }
        ensures { DoesEvent self.old (Client number request) result self.new }
    {
        request_is_valid(&request);
        next_op_is_new();
        let place = number as usize;
        let proxy = &mut self.proxies[place];
        let count = make_room(&mut self.sent, &mut self.history, proxy, reading, &request)?;
        let Some(issued) = issue_copy(proxy, reading, &request) else {
            drop(request);
            return Err(WorldError::OutOfMemory);
        };
        let Issued { op, legs } = issued;
        let first = self.sent.len();
        send(&mut self.sent, &self.numbers[place], legs);
        self.history.push(Entry::Issued {
            op,
            proxy: number,
            request,
        });
        Ok(Note::Issued { op, first, count })
    }
}
