//! Refused memory: the same call made again gives what it gives with ample memory, and OutOfMemory stands in the place of no
//! other refusal but where the text is read.
use super::formats::{script_of_held, transcript_of_held};
use super::plans::{ROWS, far_is_told, plan_is, request};
use super::transcripts::{SCRIPT, TRANSCRIPT};
use super::*;
use crate::tests::must;
use mr_scripts::read_events;
use mr_test_support::{at_last, grant_memory, refuse_memory};
use mr_transcripts::{Checked, Outcome, check_transcript, write_transcript};
use std::alloc::AllocError;
use std::env::Env;
use std::process::Abort;

/// Texts, and why they are no configuration, if they are none.
static TEXTS: [(&str, Option<PlanError>); 4] = [
    (FLEET, None),
    ("{", Some(PlanError::NotJson)),
    ("[]", Some(PlanError::WrongKind)),
    ("{}", Some(PlanError::MissingKey)),
];

/// Asserts why a text is no configuration, also where memory for it was refused once.
fn is_read(rt: &(impl Abort + Env), alloc: Global, text: &str, refusal: Option<PlanError>) {
    let read = at_last!(
        rt,
        Config::read(alloc, text.as_bytes()),
        Err(PlanError::OutOfMemory)
    );
    is_for(rt, read.as_ref().err().copied(), refusal, text);
    if let Ok(config) = read {
        is(rt, first_hop(config.schedule()), (1000, 100));
    }
}

#[test]
fn refused_memory_reads_a_configuration_later(rt: HostRuntime) {
    for (text, refusal) in &TEXTS {
        is_read(&rt, rt.alloc(), text, *refusal);
    }
}

#[test]
fn refused_memory_copies_a_configuration_later(rt: HostRuntime) {
    let config = must(&rt, config(rt.alloc(), FLEET));
    let copy = must(&rt, at_last!(&rt, config.copy(), Err(AllocError)));
    is(&rt, copy.routing().same_as(config.routing()), true);
}

/// The plan of the first row, which is made again where memory for it was refused.
fn plan_at_last(rt: &(impl Abort + Env), alloc: Global, config: &Config) -> RequestPlan {
    let asked = ROWS[0];
    let first = request(rt, alloc, asked.0);
    let again = request(rt, alloc, asked.0);
    refuse_memory(rt);
    let planned = plan(alloc, config, asked.1, first);
    grant_memory(rt);
    match planned {
        Err(PlanError::OutOfMemory) => must(rt, plan(alloc, config, asked.1, again)),
        planned => must(rt, planned),
    }
}

#[test]
fn refused_memory_plans_later(rt: HostRuntime) {
    let config = must(&rt, config(rt.alloc(), FLEET));
    let plan = plan_at_last(&rt, rt.alloc(), &config);
    plan_is(&rt, &plan, ROWS[0]);
    let copy = must(&rt, at_last!(&rt, plan.copy(), Err(AllocError)));
    plan_is(&rt, &copy, ROWS[0]);
}

#[test]
fn refused_memory_advises_later(rt: HostRuntime) {
    let config = must(&rt, config(rt.alloc(), FLEET));
    let far = at_last!(
        &rt,
        advise(rt.alloc(), &config, &[999, 1100]),
        Err(PlanError::OutOfMemory)
    );
    let far = must(&rt, far);
    far_is_told(&rt, &far);
    let copy = must(&rt, at_last!(&rt, far.copy(), Err(AllocError)));
    far_is_told(&rt, &copy);
}

/// The transcript of a script, which is written again where memory for it was refused.
fn transcript_at_last(rt: &(impl Abort + Env), alloc: Global, text: &str) -> Vec<u8> {
    let read = at_last!(
        rt,
        read_events(alloc, text.as_bytes()),
        Err(PlanError::OutOfMemory)
    );
    let script = must(rt, read);
    let again = must(rt, at_last!(rt, script.copy(), Err(AllocError)));
    refuse_memory(rt);
    let written = write_transcript(alloc, script);
    grant_memory(rt);
    match written {
        Err(PlanError::OutOfMemory) => must(rt, write_transcript(alloc, again)),
        written => must(rt, written),
    }
}

#[test]
fn refused_memory_writes_a_transcript_later(rt: HostRuntime) {
    let text = transcript_at_last(&rt, rt.alloc(), SCRIPT);
    is(&rt, text.as_slice() == TRANSCRIPT.as_bytes(), true);
}

#[test]
fn refused_memory_writes_a_transcript_of_format_2_later(rt: HostRuntime) {
    let script = script_of_held(&rt, rt.alloc());
    let wanted = transcript_of_held(&rt, rt.alloc());
    let text = transcript_at_last(&rt, rt.alloc(), &script);
    is(&rt, text.as_slice() == wanted.as_bytes(), true);
}

/// Asserts that a transcript was accepted.
fn is_accepted(rt: &impl Abort, checked: &Checked) {
    is(rt, checked.outcome == Outcome::Accepted, true);
    is(rt, matches!(checked.verdict, KeptVerdict::Safe), true);
}

#[test]
fn refused_memory_checks_a_transcript_later(rt: HostRuntime) {
    let checked = at_last!(
        &rt,
        check_transcript(rt.alloc(), TRANSCRIPT.as_bytes()),
        Err(PlanError::OutOfMemory)
    );
    let checked = must(&rt, checked);
    is_accepted(&rt, &checked);
    let copy = must(&rt, at_last!(&rt, checked.copy(), Err(AllocError)));
    is_accepted(&rt, &copy);
}
