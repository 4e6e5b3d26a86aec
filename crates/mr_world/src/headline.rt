//! What the whole is for, in one sentence, and that it happens.
ghost use Rattle.mr_world.specs.Example.{Happens, HappensBetweenHops};
ghost use Rattle.mr_world.specs.Headline.{Headline};

use crate::laws::{
    runs_keep_secured, runs_tell_premises, setups_begin_faithful, setups_begin_secured,
    setups_begin_tracked, setups_tell_premises,
};
use mr_proxy::laws::fresh_is_sound;

/// After every list of events each hit that any proxy answers was stored by a set of that key performed before the
/// answer and after the issue of every delete of that key acknowledged, by any proxy, before the get was issued: where
/// all proxies have one routing and one schedule, of one to four migrations in a row, no pool but the first held
/// anything at the beginning, no clock went back, and no two clocks ever differed by more than the least interval.
pub fn headline()
    ensures { Headline }
{
    fresh_is_sound();
    setups_begin_tracked();
    setups_begin_faithful();
    setups_begin_secured();
    setups_tell_premises();
    runs_tell_premises();
    runs_keep_secured();
}

/// What the headline speaks of happens: two proxies whose clocks differ, all premises, a delete of a key that both
/// pools perform and that is acknowledged, a set of that key after it, and a get that hits what was set.
pub fn example()
    ensures { Happens }
{}

/// So it does in a chain of two migrations while three clocks are in different ones: the proxy that is behind sets a
/// key, another deletes it in both pools of the second migration, and the third sets it again and gets it.
pub fn chain_example()
    ensures { HappensBetweenHops }
{}
