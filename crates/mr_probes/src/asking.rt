//! How a request is begun: it is noted by the judge, and then stands in its client's output.
ghost use Rattle.std.specs.Prelude.{◌≡◌, MatchResult, IfOk, OnErr};
ghost use Rattle.mr_probes.specs.Stamp.{stamp_text};
ghost use Rattle.mr_probes.specs.CanaryView.{Begins, command_for, fitting};

use crate::client::{Asking, Waiting};
use crate::heard::Heard;
use crate::notebook::Notebook;
use crate::stamp::{Stamp, stamp_text};
use crate::unsent::Unsent;
use crate::wish::{Kind, Wish};
use mr_canary::CanaryError;
use mr_node::NodeCommand;
use mr_text::{Block, FixedBuffer};
use std::alloc::{AllocError, Global};

/// After so many seconds a value expires.
const EXPTIME: i64 = 3600;

/// The data of a set that says this.
fn block_of(alloc: Global, stamp: &Stamp) -> Result<Block, AllocError>
    ensures { IfOk result (λ block. block ≡ stamp_text stamp.now) }
{
    let text = stamp_text(alloc, stamp)?;
    Block::new(alloc, &text).map_err(|_| AllocError)
}

/// The command of a wish, whose set says this.
fn command_of(
    alloc: Global,
    notebook: &Notebook,
    wish: Wish,
    stamp: &Stamp,
) -> Result<NodeCommand, CanaryError>
    ensures { IfOk result (λ command. command ≡ command_for notebook.now wish stamp.now) }
{
    let Some(key) = notebook.key(wish.key) else {
        return Err(CanaryError::NoSuchKey);
    };
    let key = key.copy()?;
    Ok(match wish.kind {
        Kind::Get => NodeCommand::Get(key),
        Kind::Delete => NodeCommand::Delete(key),
        Kind::Set => NodeCommand::Set {
            key,
            flags: 0,
            exptime: EXPTIME,
            block: block_of(alloc, stamp)?,
        },
    })
}

/// What is asked in place of a wish: of a key of which the judge keeps as many values as it may, a delete for a set.
pub(crate) fn fitting(notebook: &Notebook, wish: Wish) -> Wish
    ensures { result ≡ fitting notebook.now.judge wish }
{
    match wish.kind {
        Kind::Set if notebook.is_full(wish.key) => Wish {
            key: wish.key,
            kind: Kind::Delete,
            cleans: wish.cleans,
        },
        _ => wish,
    }
}

/// A client is about to send this. For want of memory nothing is noted.
pub(crate) fn begin(
    alloc: Global,
    buffer: &mut FixedBuffer,
    notebook: &mut Notebook,
    client: u32,
    now: u64,
    wish: Wish,
) -> Result<Waiting, CanaryError>
    ensures begun { IfOk result (λ waiting. Begins client now wish notebook.old waiting notebook.new) }
    ensures unchanged { OnErr result (notebook.new ≡ notebook.old) }
{
    let stamp = Stamp {
        run: notebook.run(),
        key: wish.key as u64,
        value: notebook.sets(wish.key),
        client: u64::from(client),
        time: now,
    };
    let command = command_of(alloc, notebook, wish, &stamp)?;
    let unsent = Unsent::of(alloc, &command, buffer)?;
    let probe = notebook.issue(client, now, wish)?;
    Ok(Waiting {
        asking: Asking {
            probe,
            command,
            cleans: wish.cleans,
        },
        unsent,
        heard: Heard::new(alloc),
    })
}
