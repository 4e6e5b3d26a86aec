//! Where memory may be refused: `tests/refused` counts the requests for memory between these two marks, and refuses each of
//! them in turn. Everywhere else they are nothing.
use std::env::Env;

/// From here on a request for memory may be refused.
pub fn refuse_memory(rt: &impl Env) {
    let _ = rt.var("MEMORY_MAY_BE_REFUSED", &mut []);
}

/// From here on memory is ample.
pub fn grant_memory(rt: &impl Env) {
    let _ = rt.var("MEMORY_IS_AMPLE", &mut []);
}

/// What a call gives, which is made again with ample memory where it was refused some: by this error.
#[macro_export]
macro_rules! at_last {
    ($rt:expr, $call:expr, $refused:pat) => {{
        $crate::refuse_memory($rt);
        let first = $call;
        $crate::grant_memory($rt);
        match first {
            $refused => $call,
            answer => answer,
        }
    }};
}
