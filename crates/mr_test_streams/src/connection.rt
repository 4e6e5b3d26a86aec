//! One connection from a proxy to a node.
use crate::trips::Trip;
use mr_text::ReplyReader;
use std::alloc::Global;
use std::test::Fail;

/// A connection from a proxy to a node, with the bytes that are on their way over it, and the requests that they are of.
#[derive(Drop)]
pub struct Connection {
    /// The proxy's number.
    pub proxy: usize,
    /// Which of its links goes over it.
    pub link: usize,
    /// The node's number.
    pub node: usize,
    /// Its place among the clients of the node; none once the node's end of it is gone.
    pub place: Option<usize>,
    /// The proxy's end of it is gone.
    pub is_left: bool,
    /// The bytes on their way to the node.
    pub forth: Vec<u8>,
    /// The bytes on their way to the proxy.
    pub back: Vec<u8>,
    /// The requests that went over it, in their order.
    pub trips: Vec<Trip>,
    /// How many of them the node performed.
    pub performed: usize,
    /// How many of these the proxy took the reply of.
    pub taken: usize,
    /// Reads what the node says.
    pub said: ReplyReader,
    /// Reads what the proxy hears.
    pub heard: ReplyReader,
}

impl Connection {
    /// A connection on which nothing is on its way.
    pub fn new(alloc: Global, proxy: usize, link: usize, node: usize, place: usize) -> Connection {
        Connection {
            proxy,
            link,
            node,
            place: Some(place),
            is_left: false,
            forth: Vec::new(alloc),
            back: Vec::new(alloc),
            trips: Vec::new(alloc),
            performed: 0,
            taken: 0,
            said: ReplyReader::new(alloc),
            heard: ReplyReader::new(alloc),
        }
    }

    /// Whether a link of a proxy goes over it.
    pub fn is_over(&self, proxy: usize, link: usize) -> bool {
        self.proxy == proxy && self.link == link && !self.is_left
    }

    /// A leg goes over it: in a request by itself, or in the last one.
    pub fn carries(&mut self, message: usize, travels: bool) -> Result<(), Fail> {
        if travels {
            if let Some(trip) = self.trips.last_mut() {
                return Ok(trip.messages.push(message)?);
            }
        }
        let alloc = *self.trips.allocator();
        let mut messages = Vec::new(alloc);
        messages.push(message)?;
        Ok(
            self.trips.push(Trip {
                messages,
                replies: Vec::new(alloc),
            })?,
        )
    }

    /// The first leg of the last request that went over it.
    pub fn last(&self) -> Option<usize> {
        match self.trips.last() {
            Some(trip) => trip.messages.first().copied(),
            None => None,
        }
    }

    /// The node's end of it is gone: what was on its way to it is lost.
    pub fn drop_end(&mut self, alloc: Global) {
        self.place = None;
        self.forth = Vec::new(alloc);
    }
}
