//! What a client sent that wasn't begun yet.
ghost use Rattle.std.specs.Prelude.{◌≡◌, ◌≢◌, ◌⊎◌, ◌++◌, [], true, false, None, IfOk, OnOk, OnErr};
ghost use Rattle.mr_loop.specs.Inboxes.{fresh_inbox, holding, waiting, going_on, FetchIs};
ghost use Rattle.mr_loop.specs.LoopView.{TakesPiece, EndsInput};

use mr_node::session::skips_line;
use mr_text::{Request, RequestReader, TextError};
use std::alloc::{AllocError, Global};

/// One thing that a client sent.
#[derive(Debug, Drop)]
pub enum Input {
    /// It asks something.
    Asks(Request),
    /// A text that is refused as a request.
    Refused(TextError),
}

/// What stands next of a client.
#[derive(Debug, Drop)]
pub enum Fetched {
    /// This.
    Came(Input),
    /// Nothing that is whole: more bytes are needed.
    Nothing,
    /// Memory for what is whole was refused: it is still there.
    NoMemory,
    /// Nothing more comes: it quit, its input ended, or its text was refused for good.
    Done,
}

/// What a client sent that wasn't begun yet.
#[derive(Drop)]
pub struct Inbox {
    /// The bytes that came.
    pub reader: RequestReader,
    /// What was read of them before and held back.
    pub held: Option<Input>,
    /// What stands first was held back before.
    pub waits: bool,
    /// The client sends no more.
    pub has_ended: bool,
    /// Nothing more is read of what it sent.
    pub is_done: bool,
}

impl Inbox {
    /// Nothing came.
    pub fn new(alloc: Global) -> Inbox
        ensures { result ≡ fresh_inbox }
    {
        Inbox {
            reader: RequestReader::new(alloc),
            held: None,
            waits: false,
            has_ended: false,
            is_done: false,
        }
    }

    /// Takes bytes. For want of memory nothing changes.
    #[inline(always)]
    pub(crate) fn feed(&mut self, piece: &[u8]) -> Result<(), AllocError>
        ensures taken { OnOk result (TakesPiece piece.now self.old self.new) }
        ensures unchanged { OnErr result (self.new ≡ self.old) }
    {
        if piece.is_empty() {
            return Ok(());
        }
        match self.reader.feed(piece) {
            Ok(()) => Ok(()),
            Err(TextError::Closed) => Ok(()),
            Err(_) => Err(AllocError),
        }
    }

    /// The client sends no more.
    pub(crate) fn end(&mut self)
        ensures { EndsInput self.old self.new }
    {
        self.reader.end();
        self.has_ended = true;
    }

    /// Holds back what was fetched.
    #[inline(always)]
    pub(crate) fn hold(&mut self, input: Input)
        ensures { self.new ≡ holding input self.old }
    {
        self.held = Some(input);
        self.waits = true;
    }

    /// What stands first is held back before it is fetched.
    pub(crate) fn wait(&mut self)
        ensures { self.new ≡ waiting self.old }
    {
        self.waits = true;
    }

    /// What stood first is done.
    #[inline(always)]
    pub(crate) fn go_on(&mut self)
        ensures { self.new ≡ going_on self.old }
    {
        self.waits = false;
    }

    /// What stands next.
    #[inline(always)]
    pub(crate) fn fetch(&mut self) -> Fetched
        ensures { FetchIs self.old result self.new }
    {
        if let Some(input) = self.held.take() {
            return Fetched::Came(input);
        }
        if self.is_done {
            return Fetched::Done;
        }
        self.read()
    }

    /// What the reader gives next.
    #[inline(always)]
    fn read(&mut self) -> Fetched
        requires held { self.old.held ≡ None }
        requires goes_on { self.old.is_done ≡ false }
        ensures { FetchIs self.old result self.new }
    {
        match self.reader.next() {
            Ok(Some(Request::Quit)) => {
                self.is_done = true;
                Fetched::Done
            }
            Ok(Some(request)) => Fetched::Came(Input::Asks(request)),
            Ok(None) => {
                if self.has_ended {
                    self.is_done = true;
                    Fetched::Done
                } else {
                    Fetched::Nothing
                }
            }
            Err(TextError::OutOfMemory) => Fetched::NoMemory,
            Err(TextError::Closed) => {
                self.is_done = true;
                Fetched::Done
            }
            Err(refusal) => {
                self.is_done = !skips_line(refusal);
                Fetched::Came(Input::Refused(refusal))
            }
        }
    }
}
