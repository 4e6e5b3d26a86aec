//! Two to five pools in a row, which are kept without memory of their own.
ghost use Rattle.std.specs.Prelude.{◌≡◌, ◌<◌, ◌++◌, [], ◌∷◌, length, IfOk};
ghost use Rattle.mr_pools.specs.Limits.{most_pools};
ghost use Rattle.mr_pools.specs.Pools.{pools_in};

use crate::pool::Pool;
use std::alloc::AllocError;

/// Two to five pools.
#[derive(Debug, Drop)]
pub(crate) enum Pools {
    Two([Pool; 2]),
    Three([Pool; 3]),
    Four([Pool; 4]),
    Five([Pool; 5]),
}

impl Pools {
    /// The pools in order.
    pub(crate) fn as_slice(&self) -> &[Pool]
        ensures { result.now ≡ pools_in self.now }
    {
        match self {
            Pools::Two(pools) => pools.as_slice(),
            Pools::Three(pools) => pools.as_slice(),
            Pools::Four(pools) => pools.as_slice(),
            Pools::Five(pools) => pools.as_slice(),
        }
    }

    /// The pools with one more behind them.
    pub(crate) fn then(self, pool: Pool) -> Pools
        requires { length (pools_in self) < most_pools }
        ensures { pools_in result ≡ pools_in self ++ pool ∷ [] }
    {
        match self {
            Pools::Two([a, b]) => Pools::Three([a, b, pool]),
            Pools::Three([a, b, c]) => Pools::Four([a, b, c, pool]),
            Pools::Four([a, b, c, d]) => Pools::Five([a, b, c, d, pool]),
            Pools::Five(_full) => unreachable!(),
        }
    }

    /// Equal pools.
    pub(crate) fn copy(&self) -> Result<Pools, AllocError>
        ensures { IfOk result (λ pools. pools_in pools ≡ pools_in self.now) }
    {
        match self {
            Pools::Two([a, b]) => Ok(Pools::Two([a.copy()?, b.copy()?])),
            Pools::Three([a, b, c]) => Ok(Pools::Three([a.copy()?, b.copy()?, c.copy()?])),
            Pools::Four([a, b, c, d]) => Ok(Pools::Four([
                a.copy()?,
                b.copy()?,
                c.copy()?,
                d.copy()?,
            ])),
            Pools::Five([a, b, c, d, e]) => Ok(Pools::Five([
                a.copy()?,
                b.copy()?,
                c.copy()?,
                d.copy()?,
                e.copy()?,
            ])),
        }
    }
}
