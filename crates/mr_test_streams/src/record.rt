//! What happened to a fleet as streams of bytes: its history, and a world in which the same happens.
use mr_history::{Author, Entry, History, OpId, Verdict, judge_history};
use mr_node::NodeCommand;
use mr_pools::{NodeName, Routing};
use mr_proxy::{LegSheet, WorldError, leg_reply_of};
use mr_text::{Reply, Request};
use mr_world::{Event, HeldItem, Note, Setup, World};
use std::alloc::{AllocError, Global};
use std::test::Fail;

/// What happened, and what was counted of it.
#[derive(Drop)]
pub struct Record {
    pub alloc: Global,
    history: History,
    pub world: World,
    /// The events of the world, as words.
    script: String,
    /// How often the world said something else than the streams.
    unlike: u64,
    /// Hits that were told.
    hits: u64,
    /// Deletes whose acknowledgement was told.
    deletes: u64,
    /// Items that a node stored for a proxy that had left.
    late: u64,
}

/// What the history says of an item that is held at the beginning.
fn held_entry(item: &HeldItem) -> Result<Entry, AllocError> {
    Ok(Entry::Stored {
        by: Author::Beginning,
        key: item.key.copy()?,
        flags: item.flags,
        block: item.block.copy()?,
    })
}

/// What the history gains where a node says this of a leg.
fn stored_entry(sheet: &LegSheet, reply: &Reply) -> Result<Option<Entry>, AllocError> {
    match (&sheet.command, reply) {
        (
            NodeCommand::Set {
                key,
                flags,
                exptime: _,
                block,
            },
            Reply::Stored,
        ) => Ok(Some(Entry::Stored {
            by: Author::By(sheet.id.op),
            key: key.copy()?,
            flags: *flags,
            block: block.copy()?,
        })),
        _ => Ok(None),
    }
}

/// The word of a verdict.
fn word_of(verdict: Verdict<'_>) -> &'static str {
    match verdict {
        Verdict::Safe => "safe",
        Verdict::Stale { .. } => "stale",
        Verdict::Invented { .. } => "invented",
    }
}

impl Record {
    /// Nothing happened yet to the fleet of a setup.
    pub fn of(alloc: Global, setup: &Setup) -> Result<Record, Fail> {
        let copy = setup.copy()?;
        if copy.proxies().len() > 64 {
            return Err(Fail::from("a fleet has at most 64 proxies"));
        }
        let mut record = Record {
            alloc,
            history: History::new(alloc)?,
            world: World::new(alloc, copy)?,
            script: String::new(alloc),
            unlike: 0,
            hits: 0,
            deletes: 0,
            late: 0,
        };
        for item in setup.held() {
            record.add(held_entry(item)?)?;
        }
        Ok(record)
    }

    /// The history gains an entry.
    fn add(&mut self, entry: Entry) -> Result<(), Fail> {
        self.history.reserve(1)?;
        if !self.history.fits(&entry) {
            return Err(Fail::from("an entry doesn't fit the history"));
        }
        self.history.push(entry);
        Ok(())
    }

    /// An event happened in the world: its words stand among those of the others.
    fn note(&mut self, words: &str) -> Result<(), Fail> {
        if !self.script.is_empty() {
            self.script.push(',')?;
        }
        Ok(self.script.push_str(words)?)
    }

    /// The same happens in the world.
    fn happens(&mut self, event: Event, words: &str) -> Result<Note, Fail> {
        let note = self.world.step(event)?;
        self.note(words)?;
        Ok(note)
    }

    /// The clock of a proxy shows another reading.
    pub fn shows(&mut self, proxy: u32, reading: u64) -> Result<(), Fail> {
        let words = format!(in self.alloc; "clock:{proxy}:{reading}")?;
        let _ = self.happens(Event::Clock { proxy, reading }, words.as_str())?;
        Ok(())
    }

    /// A node loses all that it holds.
    pub fn restarts_node(&mut self, number: usize, name: &NodeName) -> Result<(), Fail> {
        let words = format!(in self.alloc; "node_restart:{number}")?;
        let event = Event::NodeRestart { node: name.copy()? };
        let _ = self.happens(event, words.as_str())?;
        Ok(())
    }

    /// A proxy forgets its requests under way.
    pub fn restarts_proxy(&mut self, proxy: u32) -> Result<(), Fail> {
        let words = format!(in self.alloc; "proxy_restart:{proxy}")?;
        let _ = self.happens(Event::ProxyRestart { proxy }, words.as_str())?;
        Ok(())
    }

    /// A request of a visit is issued. The first of its messages, and how many there are.
    pub fn issues(
        &mut self,
        op: OpId,
        visit: usize,
        request: Request,
    ) -> Result<(usize, usize), Fail> {
        self.add(Entry::Issued {
            op,
            proxy: op.proxy,
            request: request.copy()?,
        })?;
        let words = format!(in self.alloc; "client:{}:{visit}", op.proxy)?;
        let event = Event::Client {
            proxy: op.proxy,
            request,
        };
        match self.happens(event, words.as_str())? {
            Note::Issued {
                op: named,
                first,
                count,
            } if named == op => Ok((first, count)),
            _ => Err(Fail::from("the world issues another request")),
        }
    }

    /// A request is given up, unless it has left.
    pub fn gives_up(&mut self, op: OpId) -> Result<(), Fail> {
        match self.world.step(Event::GiveUp { op }) {
            Err(WorldError::NoSuchOp) => Ok(()),
            Err(refusal) => Err(Fail::from(refusal)),
            Ok(_) => {
                let words = format!(in self.alloc;
                    "give_up:{}:{}:{}",
                    op.proxy, op.incarnation, op.number
                )?;
                self.note(words.as_str())
            }
        }
    }

    /// The request of a message is given up, unless it has left.
    pub fn loses(&mut self, message: usize) -> Result<(), Fail> {
        let Some(sent) = self.world.sent().get(message) else {
            return Err(Fail::from("no such message was sent"));
        };
        let op = sent.sheet.id.op;
        self.gives_up(op)
    }

    /// The number of the link over which a message goes: the nodes are counted pool by pool.
    pub fn link_of(&self, routing: &Routing, message: usize) -> Result<usize, Fail> {
        let Some(sent) = self.world.sent().get(message) else {
            return Err(Fail::from("no such message was sent"));
        };
        let mut link = sent.sheet.node as usize;
        for pool in routing.pools().iter().take(sent.sheet.pool_number()) {
            link = link.saturating_add(pool.names().len());
        }
        Ok(link)
    }

    /// A node performed a message at a reading of its clock, and said this. The number of the world's reply.
    pub fn performs(
        &mut self,
        message: usize,
        now: u64,
        is_left: bool,
        said: Reply,
    ) -> Result<usize, Fail> {
        let words = format!(in self.alloc; "deliver:{message}:{now}")?;
        let Note::Performed { reply } = self.happens(
            Event::Deliver { message, now },
            words.as_str(),
        )?
        else {
            return Err(Fail::from("the world performs no message"));
        };
        let (Some(sent), Some(delivery)) = (
            self.world.sent().get(message),
            self.world.replies().get(reply),
        ) else {
            return Err(Fail::from("no such message was sent"));
        };
        let stored = stored_entry(&sent.sheet, &said)?;
        let is_alike = match leg_reply_of(&sent.sheet.command, said) {
            Some(answer) => answer.same_as(&delivery.reply),
            None => false,
        };
        if !is_alike {
            self.unlike = self.unlike.saturating_add(1);
        }
        if let Some(entry) = stored {
            self.late = self.late.saturating_add(is_left as u64);
            self.add(entry)?;
        }
        Ok(reply)
    }

    /// A proxy takes a reply.
    pub fn takes(&mut self, reply: usize) -> Result<(), Fail> {
        let words = format!(in self.alloc; "return:{reply}")?;
        let _ = self.happens(Event::Return { reply }, words.as_str())?;
        Ok(())
    }

    /// Something came to another end than it can in the world.
    pub fn differs(&mut self) {
        self.unlike = self.unlike.saturating_add(1);
    }

    /// Whether the world answered a request so.
    fn knows(&self, op: OpId, reply: &Reply) -> bool {
        for entry in self.world.history().entries() {
            if let Entry::Answered {
                op: named,
                reply: answer,
            } = entry
            {
                if *named == op {
                    return answer.same_as(reply);
                }
            }
        }
        false
    }

    /// The text of an answer is put to the bytes that a client is to be told.
    pub fn answers(&mut self, op: OpId, reply: Reply) -> Result<(), Fail> {
        if !self.knows(op, &reply) {
            self.differs();
        }
        match &reply {
            Reply::Items(items) => self.hits = self
                .hits
                .saturating_add(items.as_slice().len() as u64),
            Reply::Deleted | Reply::NotFound => self.deletes = self.deletes.saturating_add(1),
            _ => {}
        }
        self.add(Entry::Answered { op, reply })
    }

    /// What the judge says, whether the premises held, what was counted, and the events of the world.
    pub fn told(&self) -> Result<String, Fail> {
        let verdict = word_of(judge_history(&self.history));
        let premises = self.world.premises();
        let held = format!(in self.alloc;
            "{}{}{}{}",
            premises.same as u8,
            premises.new_empty as u8,
            premises.forward as u8,
            premises.near as u8
        )?;
        Ok(format!(in self.alloc;
            "{verdict} {held} {} {} {} {} -{}",
            self.unlike, self.hits, self.deletes, self.late, self.script
        )?)
    }
}
