//! What holds of every routing by its definition, and which numbers the limits are.
ghost use Rattle.std.specs.Prelude.{◌≡◌, ◌≢◌, ℕ};
ghost use Rattle.mr_pools.specs.Limits.{longest_name, most_nodes, most_pools};
ghost use Rattle.mr_pools.specs.Names.{name_at, HasNode};
ghost use Rattle.mr_pools.specs.Routing.{RoutingView, IsRouting};

use crate::limits::{MAX_NAME, MAX_NODES, MAX_POOLS};

/// The public limits are those of the definitions.
pub fn limits()
    ensures name { MAX_NAME ≡ longest_name }
    ensures nodes { MAX_NODES ≡ most_nodes }
    ensures pools { MAX_POOLS ≡ most_pools }
{}

/// No name of one pool stands in another pool of the routing.
pub fn pools_share_no_name()
    ensures { (routing : RoutingView) (p q i j : ℕ) → IsRouting routing → HasNode routing p i → HasNode routing q j
        → p ≢ q → name_at routing p i ≢ name_at routing q j }
{}

/// No name stands twice in one pool.
pub fn names_are_distinct()
    ensures { (routing : RoutingView) (p i j : ℕ) → IsRouting routing → HasNode routing p i → HasNode routing p j
        → i ≢ j → name_at routing p i ≢ name_at routing p j }
{}

/// Both at once: a name tells its pool and its index.
pub fn names_stand_once()
    ensures { (routing : RoutingView) (p q i j : ℕ) → IsRouting routing → HasNode routing p i → HasNode routing q j
        → name_at routing p i ≡ name_at routing q j → (p ≡ q) × (i ≡ j) }
{}
