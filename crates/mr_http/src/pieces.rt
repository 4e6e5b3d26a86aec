//! Reads of an answer, piece by piece.
ghost use Rattle.std.specs.Prelude.{◌≡◌, ◌+◌, ◌≤◌, vec_len, IfOk, IfErr};
ghost use Rattle.mr_http.specs.Pieces.{BringsPiece, FailsBehind, IsRead, IsNotRead, most_bytes, most_reads, is_whole};

use crate::error::FetchFault;
use mr_text::Source;
use std::alloc::Global;

/// How many bytes of a response are read at most.
pub const MAX_RESPONSE: usize = 4_194_304;

/// How many bytes of a memcached's statistics are read at most.
pub const MAX_STATS: usize = 65_536;

/// How many bytes there is room for in each read.
const PIECE_LENGTH: usize = 4096;

/// What an answer is read until.
#[derive(Clone, Copy, Debug, PartialEq, Eq)]
pub(crate) enum Until {
    /// The input has ended.
    EndOfInput,
    /// What came ends as statistics or a refusal of them do, or the input has ended.
    EndOfStats,
}

impl Until {
    /// How many bytes are read at most.
    fn most_bytes(self) -> usize
        ensures { result ≡ most_bytes self }
    {
        match self {
            Until::EndOfInput => MAX_RESPONSE,
            Until::EndOfStats => MAX_STATS,
        }
    }

    /// Whether an answer of these bytes is whole before the input ends.
    fn is_whole(self, bytes: &[u8]) -> bool
        ensures { result ≡ is_whole self bytes.now }
    {
        match self {
            Until::EndOfInput => false,
            Until::EndOfStats => bytes.ends_with(b"END\r\n") || bytes.ends_with(b"ERROR\r\n"),
        }
    }
}

/// Reads once, and adds what came. Whether it was the end of the input. TooLarge where there would be more than `most` bytes.
fn add_piece<S: Source>(
    bytes: &mut Vec<u8>,
    reader: &mut S,
    most: usize,
) -> Result<bool, FetchFault>
    requires { vec_len bytes.old ≤ most }
    ensures piece { IfOk result (BringsPiece most bytes.old.items bytes.new.items (S.told reader.old) (S.told reader.new)) }
    ensures fails { IfErr result (λ fault. FailsBehind most bytes.old.items fault (S.told reader.old) (S.told reader.new)) }
    ensures reads { (S.told reader.new).reads ≡ (S.told reader.old).reads + 1 }
{
    let mut buffer = [0; PIECE_LENGTH];
    let count = reader.read(&mut buffer)?;
    if count > most - bytes.len() {
        return Err(FetchFault::TooLarge);
    }
    bytes.extend_from_slice(&buffer[..count])?;
    Ok(count == 0)
}

/// Reads an answer, until it is whole or the input has ended.
pub(crate) fn read_until<S: Source>(
    alloc: Global,
    reader: &mut S,
    until: Until,
) -> Result<Vec<u8>, FetchFault>
    ensures read { IfOk result (λ bytes. IsRead until bytes.items (S.told reader.old) (S.told reader.new)) }
    ensures fails { IfErr result (λ fault. IsNotRead until fault (S.told reader.old) (S.told reader.new)) }
    ensures reads { (S.told reader.new).reads ≤ (S.told reader.old).reads + most_reads until }
{
    let most = until.most_bytes();
    let mut bytes = Vec::new(alloc);
    'pieces: loop {
        let ended = add_piece(&mut bytes, reader, most)?;
        if ended || until.is_whole(bytes.as_slice()) {
            return Ok(bytes);
        }
    }
}
