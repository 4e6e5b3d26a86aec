//! Which loop gets the next client.
ghost use Rattle.std.specs.Prelude.{◌≡◌, ◌==◌, ◌-◌, ◌^◌, fold, min};
ghost use Rattle.mr_driver.specs.Loads.{load_of, place_of_least, clients_in, with_load};

/// The load of a loop that takes no more clients.
const CLOSED: u64 = u64::MAX;

/// The load of a loop with so many clients, which may have ended.
pub(crate) fn load_of(has_ended: bool, clients: u64) -> u64
    ensures { result ≡ load_of has_ended clients }
{
    if has_ended { CLOSED } else { clients }
}

/// The least of some numbers of clients; the greatest number that there is where there are none.
fn least_of(loads: &[u64]) -> u64
    ensures { result ≡ fold min (2 ^ 64 - 1) loads.now }
{
    let mut least = u64::MAX;
    for load in loads {
        least = least.min(*load);
    }
    least
}

/// Whether a loop has so many clients.
fn has(load: &u64, clients: u64) -> bool
    ensures { result ≡ (load.now == clients) }
{
    *load == clients
}

/// The number of the first loop that has the fewest clients. None where there is no loop.
pub fn least_loaded(loads: &[u64]) -> Option<usize>
    ensures { result ≡ place_of_least loads.now }
{
    let least = least_of(loads);
    loads.iter().position(|load| has(load, least))
}

/// So many clients and those of one more loop. One that takes no more has none.
fn with_load(clients: u64, load: u64) -> u64
    ensures { result ≡ with_load clients load }
{
    if load == CLOSED {
        clients
    } else {
        clients.saturating_add(load)
    }
}

/// How many clients the loops have in all.
pub(crate) fn clients_in(loads: &[u64]) -> u64
    ensures { result ≡ clients_in loads.now }
{
    let mut clients = 0;
    for load in loads {
        clients = with_load(clients, *load);
    }
    clients
}
