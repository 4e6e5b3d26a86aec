//! What the data of a set says.
ghost use Rattle.std.specs.Prelude.{◌≡◌, ◌↔◌, IfOk, Some};
ghost use Rattle.mr_probes.specs.declared.stamp.Stamp.{Stamp};
ghost use Rattle.mr_probes.specs.Stamp.{stamp_text, IsStamp};

use crate::digits::{put_number, put_word, read_number, read_word};
use std::alloc::{AllocError, Global};

/// How long the data of a set is.
const LENGTH: usize = 84;

/// What the data of a set says. No two sets say the same.
#[derive(Clone, Copy, Debug, PartialEq, Eq)]
pub struct Stamp {
    /// The run of the canary.
    pub run: u64,
    /// The number of the key.
    pub key: u64,
    /// How many sets of the key there were before.
    pub value: u64,
    /// The client that sent it.
    pub client: u64,
    /// When it was issued, by the clock of the canary.
    pub time: u64,
}

/// The data that says this.
#[tactic(auto, unfolding(crate::specs::Stamp::stamp_text))]
pub fn stamp_text(alloc: Global, stamp: &Stamp) -> Result<Vec<u8>, AllocError>
    ensures { IfOk result (λ text. text.items ≡ stamp_text stamp.now) }
{
    let mut text = Vec::new(alloc);
    put_word(&mut text, stamp.run)?;
    put_word(&mut text, stamp.key)?;
    put_word(&mut text, stamp.value)?;
    put_word(&mut text, stamp.client)?;
    put_number(&mut text, stamp.time)?;
    Ok(text)
}

/// What the data says; None where it is no set's.
pub fn read_stamp(text: &[u8]) -> Option<Stamp>
    ensures { (stamp : Stamp) → IsStamp stamp → (result ≡ Some stamp) ↔ (text.now ≡ stamp_text stamp) }
{
    if text.len() != LENGTH {
        return None;
    }
    Some(Stamp {
        run: read_word(&text[..17])?,
        key: read_word(&text[17..34])?,
        value: read_word(&text[34..51])?,
        client: read_word(&text[51..68])?,
        time: read_number(&text[68..])?,
    })
}
