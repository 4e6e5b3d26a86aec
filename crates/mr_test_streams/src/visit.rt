//! What became of one client of a proxy since it came.
use mr_history::OpId;
use mr_node::session::{is_silent, reply_to_refusal, skips_line};
use mr_text::{ReplyReader, Request, RequestReader};
use std::alloc::Global;
use std::test::Fail;

/// One thing that a client sent: a request, with its name once it was issued, or a text that is refused and answered.
#[derive(Drop)]
struct Input {
    request: Option<Request>,
    op: Option<OpId>,
}

/// One client of a proxy since it came.
#[derive(Drop)]
pub struct Visit {
    reader: RequestReader,
    inputs: Vec<Input>,
    /// How many of them were issued, or passed over.
    begun: usize,
    /// How many of them were answered, or passed over.
    told: usize,
    /// Reads the texts that are put to the bytes that it is to be told.
    pub answers: ReplyReader,
    /// The bytes that it was told.
    pub heard: Vec<u8>,
}

impl Input {
    /// Whether it is answered.
    fn is_due(&self) -> bool {
        match &self.request {
            Some(request) => !is_silent(request),
            None => true,
        }
    }

    /// What is asked, where it may be issued.
    fn to_issue(&self) -> Option<&Request> {
        match &self.request {
            Some(Request::Quit) | None => None,
            Some(request) => Some(request),
        }
    }
}

impl Visit {
    /// A client that sent nothing yet.
    pub fn new(alloc: Global) -> Visit {
        Visit {
            reader: RequestReader::new(alloc),
            inputs: Vec::new(alloc),
            begun: 0,
            told: 0,
            answers: ReplyReader::new(alloc),
            heard: Vec::new(alloc),
        }
    }

    /// It sends bytes. Behind what is refused for good they are nothing.
    pub fn sends(&mut self, piece: &[u8]) -> Result<(), Fail> {
        let _ = self.reader.feed(piece);
        self.read()
    }

    /// It sends no more.
    pub fn ends(&mut self) -> Result<(), Fail> {
        self.reader.end();
        self.read()
    }

    /// Reads what is whole.
    fn read(&mut self) -> Result<(), Fail> {
        for _ in 0..u64::MAX {
            match self.reader.next() {
                Ok(None) => return Ok(()),
                Ok(request) => self.inputs.push(Input { request, op: None })?,
                Err(refusal) => {
                    if reply_to_refusal(refusal).is_some() {
                        self.inputs.push(Input {
                            request: None,
                            op: None,
                        })?;
                    }
                    if !skips_line(refusal) {
                        return Ok(());
                    }
                }
            }
        }
        Ok(())
    }

    /// Its next request gets this name. A copy of it.
    pub fn issued(&mut self, op: OpId) -> Result<Request, Fail> {
        for _ in self.begun..self.inputs.len() {
            let Some(input) = self.inputs.get_mut(self.begun) else {
                break;
            };
            self.begun = self.begun.saturating_add(1);
            if let Some(request) = input.to_issue() {
                let request = request.copy()?;
                input.op = Some(op);
                return Ok(request);
            }
        }
        Err(Fail::from("a request is issued that no client sent"))
    }

    /// The name of what is answered next; none where that is a refused text.
    pub fn answered(&mut self) -> Result<Option<OpId>, Fail> {
        for _ in self.told..self.inputs.len() {
            let Some(input) = self.inputs.get(self.told) else {
                break;
            };
            self.told = self.told.saturating_add(1);
            if input.is_due() {
                if input.request.is_some() && input.op.is_none() {
                    return Err(Fail::from("what wasn't issued is answered"));
                }
                return Ok(input.op);
            }
        }
        Err(Fail::from("what nobody sent is answered"))
    }
}
