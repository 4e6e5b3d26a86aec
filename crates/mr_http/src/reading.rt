//! Reads of a request's head.
ghost use Rattle.std.specs.Prelude.{◌≡◌, ◌+◌, ◌<◌, ◌≤◌, length, vec_len, IfOk, IfErr};
ghost use Rattle.mr_http.specs.Reading.{AddsPiece, Fails, HeadIs, MAX_HEAD, most_reads};

use crate::heard::{Heard, hear};
use mr_text::{ReadFault, Source};
use std::alloc::{AllocError, Global};
use thiserror::Error;

/// How many bytes of a head are read at most.
pub const MAX_HEAD: usize = 8192;

/// How many bytes there is room for in each read.
const PIECE_LENGTH: usize = 1024;

/// Why a head isn't read.
#[derive(Clone, Copy, Debug, PartialEq, Eq, Error)]
pub(crate) enum HeadFault {
    /// A read failed.
    #[error("a read failed")]
    ReadFault,
    /// Memory was refused for what came.
    #[error("out of memory")]
    OutOfMemory,
}

impl From<ReadFault> for HeadFault {
    ghost use Rattle.std.specs.Prelude.{◌≡◌};
    ghost use Rattle.mr_http.specs.declared.reading.HeadFault.TheVariants.{ReadFault};

    ghost from_gives = { λ _ fault. fault ≡ ReadFault };

    fn from(_: ReadFault) -> HeadFault {
        HeadFault::ReadFault
    }
}

impl From<AllocError> for HeadFault {
    ghost use Rattle.std.specs.Prelude.{◌≡◌};
    ghost use Rattle.mr_http.specs.declared.reading.HeadFault.TheVariants.{OutOfMemory};

    ghost from_gives = { λ _ fault. fault ≡ OutOfMemory };

    fn from(_: AllocError) -> HeadFault {
        HeadFault::OutOfMemory
    }
}

/// What was read of a head, and what is heard of it.
#[derive(Debug, Drop)]
pub(crate) struct ReadHead {
    /// What was read.
    pub(crate) bytes: Vec<u8>,
    /// What is heard of it.
    pub(crate) heard: Heard,
}

/// Reads once, and adds what came. Whether it was the end of the input.
fn add_piece<S: Source>(bytes: &mut Vec<u8>, reader: &mut S) -> Result<bool, HeadFault>
    requires { vec_len bytes.old < MAX_HEAD }
    ensures piece { IfOk result (AddsPiece bytes.old.items bytes.new.items (S.told reader.old) (S.told reader.new)) }
    ensures fails { IfErr result (λ fault. Fails fault (S.told reader.old) (S.told reader.new)) }
    ensures reads { (S.told reader.new).reads ≡ (S.told reader.old).reads + 1 }
{
    let mut buffer = [0; PIECE_LENGTH];
    let room = PIECE_LENGTH.min(MAX_HEAD - bytes.len());
    let piece = &mut buffer[..room];
    let count = reader.read(piece)?;
    bytes.extend_from_slice(&piece[..count])?;
    Ok(count == 0)
}

/// Reads until something is heard, `MAX_HEAD` bytes were read, or the input has ended.
pub(crate) fn read_head<S: Source>(alloc: Global, reader: &mut S) -> Result<ReadHead, HeadFault>
    ensures head { IfOk result (λ head. HeadIs head.bytes.items head.heard (S.told reader.old) (S.told reader.new)) }
    ensures fails { IfErr result (λ fault. Fails fault (S.told reader.old) (S.told reader.new)) }
    ensures reads { (S.told reader.new).reads ≤ (S.told reader.old).reads + most_reads }
{
    let mut bytes = Vec::new(alloc);
    while bytes.len() < MAX_HEAD {
        let heard = hear(bytes.as_slice());
        if heard != Heard::Unfinished {
            return Ok(ReadHead { bytes, heard });
        }
        if add_piece(&mut bytes, reader)? {
            return Ok(ReadHead { bytes, heard });
        }
    }
    let heard = hear(bytes.as_slice());
    Ok(ReadHead { bytes, heard })
}
