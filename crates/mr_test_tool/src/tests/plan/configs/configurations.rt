//! What a configuration says, and the refusals of lower layers that the program doesn't print.
use super::*;
use crate::tests::must;

/// Texts that are refused for a reason of a lower layer, with that reason.
static REFUSED: [(&str, PlanError); 7] = [
    (
        "{\"pools\":{\"a\":{\"servers\":[\"a,b\"]}},\"route\":1}",
        PlanError::BadPool(PoolError::BadName),
    ),
    (
        "{\"pools\":{\"a\":{\"servers\":[]}},\"route\":1}",
        PlanError::BadPool(PoolError::EmptyPool),
    ),
    (
        "{\"pools\":{\"a\":{\"servers\":[\"x\",\"x\"]}},\"route\":1}",
        PlanError::BadPool(PoolError::RepeatedName),
    ),
    (
        "{\"pools\":{\"a\":{\"servers\":[\"x\"]}},\"route\":{\"type\":\"MigrateRoute\",\"from\":\"PoolRoute|a\",\"to\":\"PoolRoute|a\",\"start_time\":1}}",
        PlanError::BadPool(PoolError::SharedName),
    ),
    (
        "{\"pools\":{\"a\":{\"servers\":[\"x\"]}},\"route\":{\"type\":\"MigrateRoute\",\"from\":\"PoolRoute|a\",\"to\":\"PoolRoute|a\",\"start_time\":1,\"interval\":0}}",
        PlanError::BadSchedule(ScheduleError::ZeroInterval),
    ),
    (
        "{\"pools\":{\"a\":{\"servers\":[\"x\"]}},\"route\":{\"type\":\"MigrateRoute\",\"from\":\"PoolRoute|a\",\"to\":\"PoolRoute|a\",\"start_time\":18446744073709551416,\"interval\":100}}",
        PlanError::BadSchedule(ScheduleError::TooLate),
    ),
    ("{", PlanError::NotJson),
];

#[test]
fn a_refusal_carries_that_of_the_layer_below(rt: HostRuntime) {
    for (text, wanted) in &REFUSED {
        is_for(&rt, refusal(rt.alloc(), text), Some(*wanted), text);
    }
}

/// Asserts what the configuration of the worked examples says.
fn is_worked(rt: &impl Abort, config: &Config) {
    is(rt, first_hop(config.schedule()), (1000, 100));
    is(rt, config.routing().hash() == NamedHash::Sum, true);
    moves_between(
        rt,
        config.routing(),
        &["7001", "7002"],
        &["7101", "7102", "7103"],
    );
}

/// Asserts that a copy says the same.
fn is_copied(rt: &impl Abort, config: &Config) {
    let copied = must(rt, config.copy());
    is(rt, copied.routing().same_as(config.routing()), true);
    is(rt, first_hop(copied.schedule()), (1000, 100));
}

#[test]
fn a_configuration_is_read(rt: HostRuntime) {
    let config = must(&rt, config(rt.alloc(), FLEET));
    is_worked(&rt, &config);
    is_copied(&rt, &config);
}
