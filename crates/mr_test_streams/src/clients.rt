//! What happens between proxies and their clients.
use crate::fleet::Fleet;
use crate::pieces::{behind, replies_in};
use crate::visit::Visit;
use mr_history::OpId;
use mr_loop::ProxyLoop;
use std::alloc::Global;
use std::test::Fail;

/// The texts that a flush puts to the bytes that a client is to be told.
fn put_texts(alloc: Global, machine: &mut ProxyLoop, client: usize) -> Result<Vec<u8>, Fail> {
    let before = client_output(machine, client)?.len();
    machine.flush(client)?;
    behind(alloc, client_output(machine, client)?, before)
}

/// The bytes that a client is to be told.
fn client_output(machine: &ProxyLoop, client: usize) -> Result<&[u8], Fail> {
    if client >= machine.places() {
        return Err(Fail::from("there is no such place"));
    }
    Ok(machine.client_output(client))
}

impl Fleet {
    /// A client comes to a place of a proxy, or leaves it.
    pub fn changes(&mut self, proxy: usize, client: usize, comes: bool) -> Result<(), Fail> {
        let Some(end) = self.proxies.get_mut(proxy) else {
            return Err(Fail::from("there is no such proxy"));
        };
        if client >= end.machine.places() {
            return Err(Fail::from("there is no such place"));
        }
        if comes {
            end.machine.on_client_came(client);
        } else {
            end.machine.on_client_left(client);
        }
        if let Some(visit) = end.visits.get_mut(client) {
            *visit = self.visits.len();
        }
        Ok(self.visits.push(Visit::new(self.alloc))?)
    }

    /// The number of the visit of a client.
    fn visit_at(&self, proxy: usize, client: usize) -> Result<usize, Fail> {
        let Some(end) = self.proxies.get(proxy) else {
            return Err(Fail::from("there is no such proxy"));
        };
        match end.visits.get(client) {
            Some(visit) => Ok(*visit),
            None => Err(Fail::from("there is no such place")),
        }
    }

    /// Bytes of a client come, and what is whole of them is issued, as far as it may be.
    pub fn hears(&mut self, proxy: usize, client: usize, piece: &[u8]) -> Result<(), Fail> {
        let Some(end) = self.proxies.get_mut(proxy) else {
            return Err(Fail::from("there is no such proxy"));
        };
        if client >= end.machine.places() {
            return Err(Fail::from("there is no such place"));
        }
        let before = end.machine.core().next();
        let _ = end
            .machine
            .on_client_bytes(client, end.reading, self.now, piece)?;
        let number = self.visit_at(proxy, client)?;
        if let Some(visit) = self.visits.get_mut(number) {
            visit.sends(piece)?;
        }
        self.issue(proxy, number, before)
    }

    /// A client sends no more, and what is whole of what it sent is issued, as far as it may be.
    pub fn hears_end(&mut self, proxy: usize, client: usize) -> Result<(), Fail> {
        let Some(end) = self.proxies.get_mut(proxy) else {
            return Err(Fail::from("there is no such proxy"));
        };
        if client >= end.machine.places() {
            return Err(Fail::from("there is no such place"));
        }
        let before = end.machine.core().next();
        let _ = end.machine.on_client_ended(client, end.reading, self.now);
        let number = self.visit_at(proxy, client)?;
        if let Some(visit) = self.visits.get_mut(number) {
            visit.ends()?;
        }
        self.issue(proxy, number, before)
    }

    /// The requests that took a number, from this one on, were issued for a visit, in order.
    fn issue(&mut self, proxy: usize, visit: usize, before: u64) -> Result<(), Fail> {
        let Some(end) = self.proxies.get(proxy) else {
            return Err(Fail::from("there is no such proxy"));
        };
        let core = end.machine.core();
        let (name, incarnation, next) = (core.number(), core.incarnation(), core.next());
        for number in before..next {
            let op = OpId {
                proxy: name,
                incarnation,
                number,
            };
            let Some(asker) = self.visits.get_mut(visit) else {
                return Err(Fail::from("there is no such visit"));
            };
            let (first, count) = self.record.issues(op, visit, asker.issued(op)?)?;
            self.send(proxy, op, first, count)?;
        }
        Ok(())
    }

    /// The legs of a request go over their links. Where one has none, the request is given up at once.
    fn send(&mut self, proxy: usize, op: OpId, first: usize, count: usize) -> Result<(), Fail> {
        let mut is_lost = false;
        for message in first..first.saturating_add(count) {
            let Some(end) = self.proxies.get(proxy) else {
                return Err(Fail::from("there is no such proxy"));
            };
            let link = self.record.link_of(end.machine.core().routing(), message)?;
            if !self.carries(proxy, link, message)? {
                is_lost = true;
            }
        }
        if is_lost {
            self.record.gives_up(op)?;
        }
        Ok(())
    }

    /// The answers to a client's first requests are put to the bytes that it is to be told: here they are answered.
    pub fn answers(&mut self, proxy: usize, client: usize) -> Result<(), Fail> {
        let number = self.visit_at(proxy, client)?;
        let (Some(end), Some(visit)) = (self.proxies.get_mut(proxy), self.visits.get_mut(number))
        else {
            return Err(Fail::from("there is no such visit"));
        };
        let texts = put_texts(self.alloc, &mut end.machine, client)?;
        for reply in replies_in(self.alloc, &mut visit.answers, texts.as_slice())? {
            if let Some(op) = visit.answered()? {
                self.record.answers(op, reply)?;
            }
        }
        Ok(())
    }

    /// A client is told the first bytes that it is to be told.
    pub fn tells(&mut self, proxy: usize, client: usize, count: usize) -> Result<(), Fail> {
        let number = self.visit_at(proxy, client)?;
        let (Some(end), Some(visit)) = (self.proxies.get_mut(proxy), self.visits.get_mut(number))
        else {
            return Err(Fail::from("there is no such visit"));
        };
        if client >= end.machine.places() {
            return Err(Fail::from("there is no such place"));
        }
        let output = end.machine.client_output(client);
        let count = count.min(output.len());
        visit
            .heard
            .extend_from_slice(output.get(..count).unwrap_or(&[]))?;
        end.machine.on_client_written(client, count);
        Ok(())
    }
}
