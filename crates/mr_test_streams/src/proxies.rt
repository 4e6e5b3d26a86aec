//! What a proxy does by itself: clocks, time and restarts.
use crate::fleet::Fleet;
use crate::making::proxy_loop;
use std::test::Fail;

impl Fleet {
    /// The clock of a proxy shows another reading.
    pub fn shows(&mut self, proxy: usize, reading: u64) -> Result<(), Fail> {
        let Some(end) = self.proxies.get_mut(proxy) else {
            return Err(Fail::from("there is no such proxy"));
        };
        end.reading = reading;
        self.record.shows(end.machine.core().number(), reading)
    }

    /// It is later by so many microseconds, as each proxy notices.
    pub fn waits(&mut self, micros: u64) -> Result<(), Fail> {
        self.now = self.now.saturating_add(micros);
        for proxy in 0..self.proxies.len() {
            if let Some(end) = self.proxies.get_mut(proxy) {
                end.machine.on_tick(self.now);
            }
            self.settle(proxy)?;
        }
        Ok(())
    }

    /// A proxy is asked for a client that was touched.
    pub fn looks(&mut self, proxy: usize) -> Result<(), Fail> {
        let Some(end) = self.proxies.get_mut(proxy) else {
            return Err(Fail::from("there is no such proxy"));
        };
        let _ = end.machine.next_touched();
        Ok(())
    }

    /// A proxy forgets its clients, its links and its requests, and begins its next incarnation.
    pub fn restarts_proxy(&mut self, proxy: usize) -> Result<(), Fail> {
        let (Some(end), Some(setup)) = (
            self.proxies.get_mut(proxy),
            self.setup.proxies().get(proxy),
        ) else {
            return Err(Fail::from("there is no such proxy"));
        };
        let core = end.machine.core();
        let number = core.number();
        let incarnation = core.incarnation().saturating_add(1);
        end.machine = proxy_loop(self.alloc, self.bounds, number, incarnation, setup)?;
        self.record.restarts_proxy(number)?;
        self.renew_visits(proxy)?;
        self.settle(proxy)
    }
}
