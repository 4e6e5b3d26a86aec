//! Clocks that show another reading, and nodes and proxies that begin again.
ghost use Rattle.mr_world.specs.declared.event.Event.TheVariants.{Clock, NodeRestart, ProxyRestart};
ghost use Rattle.mr_world.specs.Network.{IsReady, DoesEvent};

use crate::network::Network;
use crate::note::Note;
use mr_pools::NodeName;
use mr_proxy::WorldError;

impl Network {
    /// Sets the reading of a proxy's clock.
    pub(crate) fn set_clock(&mut self, proxy: u32, reading: u64) -> Result<Note, WorldError>
        requires { IsReady self.old }
        ensures { DoesEvent self.old (Clock proxy reading) result self.new }
    {
        match self.readings.set(proxy as usize, reading) {
            Ok(()) => Ok(Note::Nothing),
            Err(_) => Err(WorldError::NoSuchProxy),
        }
    }

    /// Empties the node of that name.
    pub(crate) fn restart_node(&mut self, name: &NodeName) -> Result<Note, WorldError>
        requires { IsReady self.old }
        ensures { DoesEvent self.old (NodeRestart name.now) result self.new }
    {
        let Some(number) = self.nodes.find(name) else {
            return Err(WorldError::NoSuchNode);
        };
        self.nodes.restart(number);
        Ok(Note::Nothing)
    }

    /// Restarts a proxy. Its clock stays.
    pub(crate) fn restart_proxy(&mut self, number: u32) -> Result<Note, WorldError>
        requires { IsReady self.old }
        ensures { DoesEvent self.old (ProxyRestart number) result self.new }
    {
        let place = number as usize;
        if place >= self.proxies.len() {
            return Err(WorldError::NoSuchProxy);
        }
        let proxy = &mut self.proxies[place];
        if let Err(refusal) = proxy.restart() {
            return Err(WorldError::IssueRefused(refusal));
        }
        Ok(Note::Nothing)
    }
}
