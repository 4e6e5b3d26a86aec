//! Which requests a verdict blames: those that a picture shows in red.
ghost use Rattle.std.specs.Prelude.{◌≡◌, bytes_eq, position, slice_get, option_copied};
ghost use Rattle.mr_drawing.specs.Blame.{answers, author_of, author_of_first, stores, author_after, last_author, author_shown, op_of_author, set_blamed, blame_of, is_op, is_blamed};

use mr_history::{Author, Entry, OpId, is_same_op};
use mr_shown::KeptVerdict;
use mr_text::{Item, Key, Reply};

/// The requests that a verdict blames.
#[derive(Clone, Copy, Debug, PartialEq, Eq)]
pub struct Blame {
    /// The get whose hit is bad.
    pub get: Option<OpId>,
    /// The delete that should have removed what it shows.
    pub delete: Option<OpId>,
    /// The set that had stored it.
    pub set: Option<OpId>,
}

/// Whether the entry answers the request.
fn answers(entry: &Entry, op: OpId) -> bool
    ensures { result ≡ answers op entry.now }
{
    match entry {
        Entry::Answered { op: answered, .. } => is_same_op(*answered, op),
        _ => false,
    }
}

/// Whether the entry stores the item.
fn stores(entry: &Entry, item: &Item) -> bool
    ensures { result ≡ stores item.now entry.now }
{
    match entry {
        Entry::Stored {
            key,
            flags,
            block,
            ..
        } => {
            *flags == item.flags
                && key.as_bytes() == item.key.as_bytes()
                && block.as_bytes() == item.block.as_bytes()
        }
        _ => false,
    }
}

/// Who stored the item last, after one more entry.
fn author_after(found: Option<Author>, entry: &Entry, item: &Item) -> Option<Author>
    ensures { result ≡ author_after item.now found entry.now }
{
    match entry {
        Entry::Stored { by, .. } if stores(entry, item) => Some(*by),
        _ => found,
    }
}

/// Who of these entries stored the item last.
fn last_author(entries: &[Entry], item: &Item) -> Option<Author>
    ensures { result ≡ last_author entries.now item.now }
{
    let mut found = None;
    for entry in entries {
        found = author_after(found, entry, item);
    }
    found
}

/// Where the first item of this key stands.
fn item_place(items: &[Item], key: &Key) -> Option<usize>
    ensures { result ≡ position (λ item. bytes_eq item.key key.now) items.now }
{
    items
        .iter()
        .position(|item| item.key.as_bytes() == key.as_bytes())
}

/// Who of these entries stored the item last, if there is one.
fn author_of(entries: &[Entry], item: Option<&Item>) -> Option<Author>
    ensures { result ≡ author_of entries.now (option_copied item.entry) }
{
    match item {
        Some(item) => last_author(entries, item),
        None => None,
    }
}

/// Who of these entries stored the first of these items that has the key last.
fn author_of_first(entries: &[Entry], items: &[Item], key: &Key) -> Option<Author>
    ensures { result ≡ author_of_first entries.now items.now key.now }
{
    match item_place(items, key) {
        Some(place) => author_of(entries, items.get(place)),
        None => None,
    }
}

/// Who had stored what the answer at this place shows under the key.
fn author_shown(entries: &[Entry], key: &Key, place: usize) -> Option<Author>
    ensures { result ≡ author_shown entries.now key.now place (slice_get entries.now place) }
{
    match entries.get(place) {
        Some(
            Entry::Answered {
                reply: Reply::Items(items),
                ..
            },
        ) => author_of_first(&entries[..place], items.as_slice(), key),
        _ => None,
    }
}

/// The request that stored an item, where one did.
fn op_of_author(by: Option<Author>) -> Option<OpId>
    ensures { result ≡ op_of_author by }
{
    match by {
        Some(Author::By(op)) => Some(op),
        Some(Author::Beginning) | None => None,
    }
}

/// Where the request is answered.
fn answer_place(entries: &[Entry], op: OpId) -> Option<usize>
    ensures { result ≡ position (answers op) entries.now }
{
    entries.iter().position(|entry| answers(entry, op))
}

/// The set that had stored what the answer to the get shows under the key.
fn set_blamed(entries: &[Entry], get: OpId, key: &Key) -> Option<OpId>
    ensures { result ≡ set_blamed entries.now get key.now }
{
    match answer_place(entries, get) {
        Some(place) => op_of_author(author_shown(entries, key, place)),
        None => None,
    }
}

/// The requests that a verdict over these entries blames: none where it is safe; the get alone where nothing had stored
/// what it shows; else the get, the delete and the set that had stored the first item of the key in the get's answer.
pub fn blame_of(entries: &[Entry], verdict: &KeptVerdict) -> Blame
    ensures { result ≡ blame_of entries.now verdict.now }
{
    match verdict {
        KeptVerdict::Safe => Blame {
            get: None,
            delete: None,
            set: None,
        },
        KeptVerdict::Invented { get, .. } => Blame {
            get: Some(*get),
            delete: None,
            set: None,
        },
        KeptVerdict::Stale { get, key, delete } => Blame {
            get: Some(*get),
            delete: Some(*delete),
            set: set_blamed(entries, *get, key),
        },
    }
}

/// Whether this is that request.
fn is_op(blamed: Option<OpId>, op: OpId) -> bool
    ensures { result ≡ is_op blamed op }
{
    match blamed {
        Some(other) => is_same_op(other, op),
        None => false,
    }
}

/// Whether the request is one of those.
pub(crate) fn is_blamed(blame: Blame, op: OpId) -> bool
    ensures { result ≡ is_blamed blame op }
{
    is_op(blame.get, op) || is_op(blame.delete, op) || is_op(blame.set, op)
}
