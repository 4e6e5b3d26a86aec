//! Names of requests, for tables of tests.
use mr_history::OpId;

/// The first request of the first proxy.
pub const FIRST: OpId = OpId {
    proxy: 0,
    incarnation: 0,
    number: 0,
};

/// The second request of the first proxy.
pub const SECOND: OpId = OpId { number: 1, ..FIRST };

/// The third request of the first proxy.
pub const THIRD: OpId = OpId { number: 2, ..FIRST };

/// The fourth request of the first proxy.
pub const FOURTH: OpId = OpId { number: 3, ..FIRST };

/// The first request of the second proxy.
pub const OTHER_FIRST: OpId = OpId { proxy: 1, ..FIRST };

/// The second request of the second proxy.
pub const OTHER_SECOND: OpId = OpId {
    number: 1,
    ..OTHER_FIRST
};
