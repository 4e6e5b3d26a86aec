//! What happens at the proxy's end of connections.
use crate::connection::Connection;
use crate::fleet::{Fleet, number_in};
use crate::making::name_at;
use crate::pieces::{replies_in, taken};
use mr_loop::LinkEnd;
use std::test::Fail;

impl Fleet {
    /// A leg goes over a link, as the last of those that went, with the gets before it of its request. Whether it is up.
    pub fn carries(&mut self, proxy: usize, link: usize, message: usize) -> Result<bool, Fail> {
        for connection in self.connections.iter_mut() {
            if connection.is_over(proxy, link) {
                let travels = match connection.last() {
                    Some(last) => self.record.travel_together(last, message),
                    None => false,
                };
                connection.carries(message, travels)?;
                return Ok(true);
            }
        }
        Ok(false)
    }

    /// A link comes up, over a new connection to the node that the routing names. One that was there before is left.
    pub fn connects(&mut self, proxy: usize, link: usize) -> Result<(), Fail> {
        let Some(end) = self.proxies.get_mut(proxy) else {
            return Err(Fail::from("there is no such proxy"));
        };
        if link >= end.machine.links() {
            return Err(Fail::from("there is no such link"));
        }
        end.machine.on_link_up(link, self.now);
        let Some(name) = name_at(end.machine.core().routing(), link) else {
            return Err(Fail::from("no node has such a link"));
        };
        let Some(node) = number_in(&self.nodes, name) else {
            return Err(Fail::from("there is no such node"));
        };
        self.leave_link(proxy, link)?;
        let place = self.place_at(node)?;
        let connection = Connection::new(self.alloc, proxy, link, node, place);
        Ok(self.connections.push(connection)?)
    }

    /// A link breaks, by whosever wish.
    pub fn breaks(&mut self, proxy: usize, link: usize) -> Result<(), Fail> {
        let Some(end) = self.proxies.get_mut(proxy) else {
            return Err(Fail::from("there is no such proxy"));
        };
        if link >= end.machine.links() {
            return Err(Fail::from("there is no such link"));
        }
        end.machine.on_link_broken(link, self.now);
        self.settle(proxy)
    }

    /// The connections of a proxy's links that are down are left.
    pub fn settle(&mut self, proxy: usize) -> Result<(), Fail> {
        let Some(end) = self.proxies.get(proxy) else {
            return Err(Fail::from("there is no such proxy"));
        };
        for link in 0..end.machine.links() {
            if !self.is_up(proxy, link) {
                self.leave_link(proxy, link)?;
            }
        }
        Ok(())
    }

    /// Whether a link of a proxy is up.
    fn is_up(&self, proxy: usize, link: usize) -> bool {
        match self.proxies.get(proxy) {
            Some(end) => end.machine.is_up(link),
            None => false,
        }
    }

    /// The proxy's end of the connection over a link is gone: the requests of its legs that had no reply are given up.
    fn leave_link(&mut self, proxy: usize, link: usize) -> Result<(), Fail> {
        for connection in self.connections.iter_mut() {
            if connection.is_over(proxy, link) {
                connection.is_left = true;
                for trip in connection.trips.iter().skip(connection.taken) {
                    for message in trip.messages.iter() {
                        self.record.loses(*message)?;
                    }
                }
            }
        }
        Ok(())
    }

    /// The first bytes that a loop has for a node leave it, unless it has left the connection.
    pub fn asks(&mut self, number: usize, count: usize) -> Result<(), Fail> {
        let Some(connection) = self.connections.get_mut(number) else {
            return Err(Fail::from("there is no such connection"));
        };
        let Some(end) = self.proxies.get_mut(connection.proxy) else {
            return Err(Fail::from("there is no such proxy"));
        };
        if connection.is_left || connection.link >= end.machine.links() {
            return Ok(());
        }
        let output = end.machine.link_output(connection.link);
        let count = count.min(output.len());
        connection
            .forth
            .extend_from_slice(output.get(..count).unwrap_or(&[]))?;
        end.machine.on_link_written(connection.link, count);
        Ok(())
    }

    /// The first bytes on their way back reach a loop, unless it has left the connection.
    pub fn takes(&mut self, number: usize, count: usize) -> Result<(), Fail> {
        let Some(connection) = self.connections.get_mut(number) else {
            return Err(Fail::from("there is no such connection"));
        };
        let proxy = connection.proxy;
        let Some(end) = self.proxies.get_mut(proxy) else {
            return Err(Fail::from("there is no such proxy"));
        };
        if connection.is_left || connection.link >= end.machine.links() {
            return Ok(());
        }
        let piece = taken(&mut connection.back, count)?;
        if end.machine.on_link_bytes(connection.link, self.now, &piece) != LinkEnd::Whole {
            self.record.differs();
        }
        for _ in replies_in(self.alloc, &mut connection.heard, &piece)? {
            let Some(trip) = connection.trips.get(connection.taken) else {
                return Err(Fail::from("a proxy takes what no node said"));
            };
            connection.taken = connection.taken.saturating_add(1);
            for reply in trip.replies.iter() {
                self.record.takes(*reply)?;
            }
        }
        self.settle(proxy)
    }
}
