//! What happens at the node's end of connections.
use crate::fleet::Fleet;
use crate::making::node_loop;
use crate::pieces::{behind, replies_in, taken};
use std::test::Fail;

impl Fleet {
    /// A node's place that no connection has, for one that comes.
    pub fn place_at(&mut self, node: usize) -> Result<usize, Fail> {
        let Some(end) = self.nodes.get_mut(node) else {
            return Err(Fail::from("there is no such node"));
        };
        let mut place: usize = 0;
        for connection in &self.connections {
            if let Some(other) = connection.place {
                if connection.node == node {
                    place = place.max(other.saturating_add(1));
                }
            }
        }
        if place >= end.machine.places() {
            end.machine.add_place()?;
        }
        if place >= end.machine.places() {
            return Err(Fail::from("a node has no place"));
        }
        end.machine.on_client_came(place);
        Ok(place)
    }

    /// The first bytes on their way reach a node: it serves what is whole, whether or not the proxy has left.
    pub fn serves(&mut self, number: usize, now: u64, count: usize) -> Result<(), Fail> {
        let Some(connection) = self.connections.get_mut(number) else {
            return Err(Fail::from("there is no such connection"));
        };
        let (Some(place), Some(end)) = (connection.place, self.nodes.get_mut(connection.node))
        else {
            return Ok(());
        };
        if place >= end.machine.places() {
            return Ok(());
        }
        let piece = taken(&mut connection.forth, count)?;
        let before = end.machine.client_output(place).len();
        let _ = end.machine.on_client_bytes(place, now, &piece)?;
        self.perform(number, place, now, before)
    }

    /// A node reads that a connection which the proxy has left ends: it serves what is whole of what came.
    pub fn ends(&mut self, number: usize, now: u64) -> Result<(), Fail> {
        let Some(connection) = self.connections.get_mut(number) else {
            return Err(Fail::from("there is no such connection"));
        };
        let (Some(place), Some(end)) = (connection.place, self.nodes.get_mut(connection.node))
        else {
            return Ok(());
        };
        if place >= end.machine.places() || !connection.is_left || !connection.forth.is_empty() {
            return Ok(());
        }
        let before = end.machine.client_output(place).len();
        let _ = end.machine.on_client_ended(place, now);
        self.perform(number, place, now, before)
    }

    /// What a node said behind so many bytes is of the legs of a connection's next requests, in their order.
    fn perform(
        &mut self,
        number: usize,
        place: usize,
        now: u64,
        before: usize,
    ) -> Result<(), Fail> {
        let Some(connection) = self.connections.get_mut(number) else {
            return Err(Fail::from("there is no such connection"));
        };
        let Some(end) = self.nodes.get(connection.node) else {
            return Err(Fail::from("there is no such node"));
        };
        if place >= end.machine.places() {
            return Err(Fail::from("there is no such place"));
        }
        let said = behind(self.alloc, end.machine.client_output(place), before)?;
        for reply in replies_in(self.alloc, &mut connection.said, &said)? {
            let Some(trip) = connection.trips.get_mut(connection.performed) else {
                return Err(Fail::from("a node performs what no proxy sent"));
            };
            connection.performed = connection.performed.saturating_add(1);
            let said = self.record.dealt(&trip.messages, reply)?;
            for (message, one) in trip.messages.iter().zip(said) {
                let told = self
                    .record
                    .performs(*message, now, connection.is_left, one)?;
                trip.replies.push(told)?;
            }
        }
        Ok(())
    }

    /// The first bytes that a node has for a proxy leave it.
    pub fn replies(&mut self, number: usize, count: usize) -> Result<(), Fail> {
        let Some(connection) = self.connections.get_mut(number) else {
            return Err(Fail::from("there is no such connection"));
        };
        let (Some(place), Some(end)) = (connection.place, self.nodes.get_mut(connection.node))
        else {
            return Ok(());
        };
        if place >= end.machine.places() {
            return Ok(());
        }
        let output = end.machine.client_output(place);
        let count = count.min(output.len());
        connection
            .back
            .extend_from_slice(output.get(..count).unwrap_or(&[]))?;
        end.machine.on_client_written(place, count);
        Ok(())
    }

    /// The node's end of a connection is gone: what was on its way to it is lost, what is on its way back may still come.
    pub fn drops(&mut self, number: usize) -> Result<(), Fail> {
        let Some(connection) = self.connections.get_mut(number) else {
            return Err(Fail::from("there is no such connection"));
        };
        let (Some(place), Some(end)) = (connection.place, self.nodes.get_mut(connection.node))
        else {
            return Ok(());
        };
        if place < end.machine.places() {
            end.machine.on_client_left(place);
        }
        connection.drop_end(self.alloc);
        Ok(())
    }

    /// A node loses all that it holds, and all its connections.
    pub fn restarts_node(&mut self, node: usize) -> Result<(), Fail> {
        let Some(end) = self.nodes.get_mut(node) else {
            return Err(Fail::from("there is no such node"));
        };
        end.machine = node_loop(self.alloc, self.bounds, self.setup.capacity())?;
        self.record.restarts_node(node, &end.name)?;
        for connection in self.connections.iter_mut() {
            if connection.node == node {
                connection.drop_end(self.alloc);
            }
        }
        Ok(())
    }
}
