//! Clocks, and the readings of a fleet.
use mr_clock::{Clock, ClockError, ClockFault, FixedClock, ListClock, Readings, SystemClock};
use std::alloc::{AllocError, Global};
use std::test::Fail;

/// A clock's next two readings.
fn read_twice<C: Clock>(clock: &mut C) -> [Result<u64, ClockFault>; 2] {
    [clock.now(), clock.now()]
}

/// A clock that fails once.
fn failing_once(alloc: Global) -> Result<ListClock, AllocError> {
    Ok(ListClock::new([None, Some(999)].as_slice().to_vec(alloc)?))
}

#[test]
fn clocks_are_read(rt: HostRuntime) -> Result<(), Fail> {
    assert_eq!(rt; read_twice(&mut FixedClock(999)), [Ok(999), Ok(999)]);
    assert_eq!(rt;
        read_twice(&mut failing_once(rt.alloc())?),
        [Err(ClockFault), Ok(999)]
    );
    assert!(rt; read_twice(&mut SystemClock::new(&rt))[0].is_ok());
    Ok(())
}

#[test]
fn readings_have_a_spread(rt: HostRuntime) -> Result<(), Fail> {
    let mut readings = Readings::new([1000, 1100].as_slice().to_vec(rt.alloc())?);
    assert_eq!(rt; readings.set(2, 5), Err(ClockError::NoSuchProxy));
    assert_eq!(rt; readings.spread(), 100);
    Ok(())
}
