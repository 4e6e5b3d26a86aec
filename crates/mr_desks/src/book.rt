//! What a recorded proxy comes to.
ghost use Rattle.std.specs.Prelude.{◌≡◌, count_by};
ghost use Rattle.mr_proxy.specs.ProxyView.{opening_of};
ghost use Rattle.mr_proxy.specs.Replay.{replay, is_issue};

use mr_proxy::{ProxyCore, Step};

/// A proxy, and the book of all steps that it made since it was fresh.
#[derive(Drop)]
pub struct Book {
    /// The proxy after these steps.
    pub core: ProxyCore,
    /// The steps, in order.
    pub steps: Vec<Step>,

    /// The steps, made by the fresh proxy one after another, leave the proxy as it is.
    pub ghost replays: { ∥ core ≡ replay (opening_of core) steps.items ∥₁ },

    /// As many requests were accepted as numbers were given out.
    pub ghost counted: { count_by is_issue steps.items ≡ core.next },
}

impl Book {
    /// The proxy with the book of its steps.
    pub(crate) fn of(core: ProxyCore, steps: Vec<Step>) -> Book
        requires replays { core ≡ replay (opening_of core) steps.items }
        requires counted { count_by is_issue steps.items ≡ core.next }
        ensures core { result.core ≡ core }
        ensures steps { result.steps ≡ steps }
    {
        Book { core, steps }
    }
}
