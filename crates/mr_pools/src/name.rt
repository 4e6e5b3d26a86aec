//! The names of nodes.
ghost use Rattle.std.specs.Prelude.{◌≡◌, ◌↔◌, IsTrue, IfOk};
ghost use Rattle.mr_pools.specs.NodeName.{IsNodeName, IsNameByte};
ghost use Rattle.mr_pools.specs.declared.error.PoolError.TheVariants.{BadName};

use crate::error::PoolError;
use crate::limits::MAX_NAME;
use std::alloc::{AllocError, Global};
use std::marker::Model;

/// The name of a node: 1 to 255 visible ASCII characters other than a comma.
#[derive(Debug, Drop)]
pub struct NodeName {
    bytes: Vec<u8>,
}

impl Model for NodeName {
    ghost use Rattle.std.specs.Prelude.{ℕ, List};
    ghost use Rattle.mr_pools.specs.NodeName.{IsNodeName};

    ghost Value = { List ℕ };

    ghost view = { λ n. n.bytes.items };

    ghost invariant = { λ n. IsNodeName n.bytes.items };
}

/// Whether a byte may stand in a name.
fn is_name_byte(byte: u8) -> bool
    ensures { IsTrue result ↔ IsNameByte byte }
{
    byte.is_ascii_graphic() && byte != b','
}

/// Whether the bytes are a name.
fn is_name(bytes: &[u8]) -> bool
    ensures { IsTrue result ↔ IsNodeName bytes.now }
{
    !bytes.is_empty() && bytes.len() <= MAX_NAME && bytes.iter().all(|byte| is_name_byte(*byte))
}

impl NodeName {
    ghost use Rattle.mr_pools.specs.Making.{MadeWhere};

    /// The name of these bytes, or BadName where they are none.
    pub fn new(alloc: Global, bytes: &[u8]) -> Result<NodeName, PoolError>
        ensures { MadeWhere (IsNodeName bytes.now) BadName bytes.now result }
    {
        if !is_name(bytes) {
            return Err(PoolError::BadName);
        }
        let bytes = Vec::from_slice(alloc, bytes)?;
        Ok(NodeName { bytes })
    }

    /// The bytes of the name.
    pub fn as_bytes(&self) -> &[u8]
        ensures bytes { result.now ≡ self.now }
        ensures name { IsNodeName result.now }
    {
        self.bytes.as_slice()
    }

    /// The name as text.
    pub fn as_str(&self) -> &str
        ensures { result.now ≡ self.now }
    {
        match str::from_utf8(self.as_bytes()) {
            Ok(text) => text,
            Err(_) => unreachable!(),
        }
    }

    /// An equal name.
    pub fn copy(&self) -> Result<NodeName, AllocError>
        ensures { IfOk result (λ name. name ≡ self.now) }
    {
        Ok(NodeName {
            bytes: self.bytes.clone()?,
        })
    }
}

impl PartialEq for NodeName {
    ghost use Rattle.std.specs.Str.{bytes_eq};
    ghost use Rattle.std.proofs.Common.{rules};

    ghost eq = { bytes_eq };

    ghost laws = { Prim.search rules };

    fn eq(&self, other: &NodeName) -> bool {
        self.as_bytes() == other.as_bytes()
    }
}

impl Eq for NodeName {
    ghost use Rattle.std.proofs.Common.{rules};

    ghost laws = { Prim.search rules };
}
