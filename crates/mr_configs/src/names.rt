//! The names of nodes, as bytes and as values of JSON hold them.
ghost use Rattle.std.specs.Prelude.{◌≡◌, [], ◌∷◌, map};
ghost use Rattle.serde_json.specs.View.{view};
ghost use Rattle.mr_configs.specs.Fields.{is_one_of};
ghost use Rattle.mr_configs.specs.Pools.{is_name_byte, are_name_bytes, is_node_name, names_in};

use mr_pools::MAX_NAME;
use serde_json::Value;

/// Whether a byte may stand in a node's name.
fn is_name_byte(byte: u8) -> bool
    ensures { result ≡ is_name_byte byte }
{
    byte.is_ascii_graphic() && byte != b','
}

/// Whether each byte may stand in a node's name.
fn are_name_bytes(name: &[u8]) -> bool
    ensures { result ≡ are_name_bytes name.now }
{
    for byte in name {
        if !is_name_byte(*byte) {
            return false;
        }
    }
    true
}

/// Whether the bytes name a node.
pub fn is_node_name(name: &[u8]) -> bool
    ensures { result ≡ is_node_name name.now }
{
    !name.is_empty() && name.len() <= MAX_NAME && are_name_bytes(name)
}

/// The text that a value holds; none where it is no text.
pub fn name_in(value: &Value) -> &str
    ensures { names_in (view value.now ∷ []) ≡ result.now ∷ [] }
{
    value.as_str().unwrap_or("")
}

/// Whether the name is one of these.
pub fn is_among(values: &[Value], name: &str) -> bool
    ensures { result ≡ is_one_of (names_in (map view values.now)) name.now }
{
    for value in values {
        if name_in(value) == name {
            return true;
        }
    }
    false
}
