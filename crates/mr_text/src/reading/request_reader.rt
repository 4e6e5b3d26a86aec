//! Requests, out of a stream that comes in any pieces.
ghost use Rattle.std.specs.Prelude.{◌≡◌, ◌+◌, ◌≤◌, ◌<◌, ℕ, List, [], true, false, drop, take, length, if◌then◌else◌, Some, None, Ok};
ghost use Rattle.mr_text.specs.Key.{IsKey};
ghost use Rattle.mr_text.specs.Limits.{MAX_BLOCK};
ghost use Rattle.mr_text.specs.Requests.{SpellsRequest, RefusesRequest, SkipsLine, BegunAfter, is_quit};
ghost use Rattle.mr_text.specs.Stream.{StandsFor, Becomes, NextIs, FeedIs, Holds, HoldsFew, skips_line};
ghost use Rattle.mr_text.specs.steps.BegunSet.{IsBegun};
ghost use Rattle.mr_text.specs.steps.RequestNext.{IsNextRequest};
ghost use Rattle.mr_text.specs.steps.Waiting.{WaitIs};

use crate::error::TextError;
use crate::reading::begun_set::BegunSet;
use crate::reading::blocks::has_block;
use crate::reading::requests::{Found, RefusedText, request_at, request_of};
use crate::reading::stream::Stream;
use crate::request::Request;
use std::alloc::Global;
use std::marker::Model;

/// Reads the requests of a stream that comes in any pieces.
///
/// It keeps the bytes after the last whole line or block that it has read, how far it has looked for a line end in
/// them, and, of a set whose block isn't whole, what its line said: each byte is looked at once, and nothing that was
/// read is kept. A refusal closes it, but for an unknown command that no block follows, whose line is skipped; so does
/// a quit, once it was given. After OutOfMemory the same call may be made again.
#[derive(Drop)]
pub struct RequestReader {
    stream: Stream,
    /// What the line of a set said whose block isn't whole.
    begun: Option<BegunSet>,
}

impl Model for RequestReader {
    ghost use Rattle.mr_text.specs.Stream.{ReaderView};
    ghost use Rattle.mr_text.specs.steps.BegunSet.{IsBegun};
    ghost use Rattle.mr_text.specs.steps.StreamView.{reader_of};

    ghost Value = { ReaderView };

    ghost view = { λ r. reader_of r.stream };

    ghost invariant = { λ r. IsBegun r.begun r.stream.front };
}

impl RequestReader {
    /// A reader of a stream of which nothing came yet.
    pub fn new(alloc: Global) -> RequestReader
        ensures stands { Becomes result [] false false }
        ensures begun { result.begun ≡ 0 }
    {
        RequestReader {
            stream: Stream::new(alloc),
            begun: None,
        }
    }

    /// Takes the next piece of the stream. A reader that is closed, or whose input ended, answers Closed. An error
    /// takes nothing of the piece.
    pub fn feed(&mut self, piece: &[u8]) -> Result<(), TextError>
        ensures piece { (rest : List ℕ) → StandsFor self.old rest → FeedIs self.old self.new rest piece.now result }
        ensures begun { self.new.begun ≡ self.old.begun }
    {
        self.stream.feed(piece)
    }

    /// Marks the end of the input.
    pub fn end(&mut self)
        ensures ended { (rest : List ℕ) → StandsFor self.old rest → Becomes self.new rest true self.old.closed }
        ensures begun { self.new.begun ≡ self.old.begun }
    {
        self.stream.end();
    }

    /// How many bytes came after the last whole line or block that was read. It takes no memory.
    pub fn held(&self) -> usize
        ensures { Holds self.now result }
    {
        self.stream.held()
    }

    /// The next request; None where more input is needed, or all was read. The refusals come in the order of the
    /// text: a long line, an unknown command, wrong words, a bad key, a bad number, a long block, a bad end of a
    /// block; Truncated where the input ended inside a request; want of memory where a request is whole, and the
    /// reader is then as it was.
    pub fn next(&mut self) -> Result<Option<Request>, TextError>
        ensures answer { (rest : List ℕ) → StandsFor self.old rest
            → NextIs SpellsRequest RefusesRequest SkipsLine is_quit self.old self.new rest result }
        ensures begun { BegunAfter self.old self.new result }
        ensures short { result ≡ Ok None → HoldsFew self.new }
    {
        self.next_request()
    }

    #[inline(always)]
    fn next_request(&mut self) -> Result<Option<Request>, TextError>
        ensures { IsNextRequest self.old self.new result }
    {
        if self.stream.is_closed() {
            return Err(TextError::Closed);
        }
        if self.begun.is_some() {
            self.next_block()
        } else if self.stream.held() == 0 {
            self.await_line()
        } else {
            self.next_line()
        }
    }

    /// What there is where no byte of a line came.
    #[inline(always)]
    fn await_line(&mut self) -> Result<Option<Request>, TextError>
        requires going_on { self.old.closed ≡ false }
        requires nothing { self.old.begun ≡ 0 }
        requires empty { self.old.kept ≡ [] }
        ensures { IsNextRequest self.old self.new result }
    {
        self.wait()
    }

    /// The set whose line was read, once its block is whole. It stays a call, as `keep_words` does.
    #[inline(never)]
    fn next_block(&mut self) -> Result<Option<Request>, TextError>
        requires going_on { self.old.closed ≡ false }
        requires begun { 0 < self.old.begun }
        ensures { IsNextRequest self.old self.new result }
    {
        let Some(set) = &self.begun else {
            unreachable!();
        };
        let bytes = self.stream.as_slice();
        let block_length = set.block_length();
        match has_block(block_length, bytes) {
            Ok(true) => {
                let Ok(key) = set.key(self.stream.allocator()) else {
                    return Err(TextError::OutOfMemory);
                };
                let Ok(block) = self.stream.read_block(block_length) else {
                    return Err(TextError::OutOfMemory);
                };
                let request = set.with(key, block);
                self.stream.give(0);
                self.begun = None;
                Ok(Some(request))
            }
            Ok(false) => self.wait(),
            Err(refusal) => {
                self.stream.close();
                Err(refusal)
            }
        }
    }

    /// The request that begins with the next line.
    #[inline(always)]
    fn next_line(&mut self) -> Result<Option<Request>, TextError>
        requires going_on { self.old.closed ≡ false }
        requires nothing { self.old.begun ≡ 0 }
        ensures { IsNextRequest self.old self.new result }
    {
        let line_end = self.stream.line_end();
        match request_at(self.stream.as_slice(), line_end) {
            Ok(Found::Whole(found)) => {
                let length = found.length;
                let Ok(request) = request_of(self.stream.allocator(), &found) else {
                    return Err(TextError::OutOfMemory);
                };
                Ok(Some(self.give(request, length)))
            }
            Ok(
                Found::Begun {
                    key,
                    flags,
                    exptime,
                    block_length,
                    noreply,
                    line_length,
                },
            ) => {
                keep_words(&mut self.begun, key, flags, exptime, block_length, noreply);
                self.stream.read(line_length);
                self.stream.await_block(block_length);
                self.wait()
            }
            Ok(Found::Nothing) => self.wait(),
            Err(refused) => Err(self.refuse(refused)),
        }
    }

    /// Gives a request away, and goes on behind so many bytes of those that weren't read.
    #[inline(always)]
    fn give(&mut self, request: Request, size: usize) -> Request
        requires nothing { self.old.begun ≡ 0 }
        requires within { self.old.begun + size ≤ length self.old.kept }
        requires going_on { self.old.closed ≡ false }
        ensures request { result ≡ request }
        ensures reader { self.new ≡ record {
          kept = drop (self.old.begun + size) self.old.kept;
          begun = 0;
          ended = self.old.ended;
          closed = is_quit request;
        } }
    {
        self.stream.give(size);
        if let Request::Quit = &request {
            self.stream.close();
        }
        request
    }

    /// Waits for more, or refuses what the input ended in.
    #[inline(always)]
    fn wait(&mut self) -> Result<Option<Request>, TextError>
        ensures { WaitIs self.old self.new result }
    {
        self.stream.wait(self.begun.is_some())
    }

    /// Skips the line of an unknown command, or closes the reader.
    fn refuse(&mut self, refused: RefusedText) -> TextError
        requires nothing { self.old.begun ≡ 0 }
        requires within { refused.length ≤ length self.old.kept }
        ensures refusal { result ≡ refused.refusal }
        ensures reader { self.new ≡ (if skips_line refused.refusal
            then record self.old { kept = drop refused.length self.old.kept; begun = 0 }
            else record self.old { closed = true }) }
    {
        if let TextError::UnknownCommand { closes: false } = refused.refusal {
            self.stream.give(refused.length);
        } else {
            self.stream.close();
        }
        refused.refusal
    }
}

/// Keeps what the line of a set said until its block is whole. It stays a call, since the room for its words would be cleared at each
/// request else.
#[inline(never)]
fn keep_words(
    begun: &mut Option<BegunSet>,
    key: &[u8],
    flags: u32,
    exptime: i64,
    block_length: usize,
    noreply: bool,
)
    requires key { IsKey key.now }
    requires block { block_length ≤ MAX_BLOCK }
    ensures { begun.new ≡ Some (record {
      key = key.now;
      flags = flags;
      exptime = exptime;
      block_length = block_length;
      noreply = noreply;
    }) }
{
    *begun = Some(BegunSet::of(key, flags, exptime, block_length, noreply));
}
