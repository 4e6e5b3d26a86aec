//! The levels of the proxies' lanes: the first of each is for its name, and each request of it has the next one for itself.
ghost use Rattle.std.specs.Prelude.{◌≡◌};
ghost use Rattle.mr_drawing.specs.Rows.{comes_earlier, stands_above, is_issue, is_issue_at, is_issue_below, level_of, base_of, height_of, levels_of};

use crate::places::plus;
use crate::steps::Step;
use mr_history::OpId;

/// Whether a request was accepted before another one of the same proxy.
fn comes_earlier(one: OpId, other: OpId) -> bool
    ensures { result ≡ comes_earlier one other }
{
    one.incarnation < other.incarnation
        || (one.incarnation == other.incarnation && one.number < other.number)
}

/// Whether the step issues a request whose level is above that of this one.
fn stands_above(step: &Step, op: OpId) -> bool
    ensures { result ≡ stands_above op step.now }
{
    match step {
        Step::Issue(issue) => {
            issue.op.proxy < op.proxy || (issue.op.proxy == op.proxy && comes_earlier(issue.op, op))
        }
        _ => false,
    }
}

/// Whether the step issues a request.
fn is_issue(step: &Step) -> bool
    ensures { result ≡ is_issue step.now }
{
    match step {
        Step::Issue(_) => true,
        _ => false,
    }
}

/// Whether the step issues a request at this proxy.
fn is_issue_at(step: &Step, proxy: u32) -> bool
    ensures { result ≡ is_issue_at proxy step.now }
{
    match step {
        Step::Issue(issue) => issue.op.proxy == proxy,
        _ => false,
    }
}

/// Whether the step issues a request at a proxy of a lower number.
fn is_issue_below(step: &Step, proxy: u32) -> bool
    ensures { result ≡ is_issue_below proxy step.now }
{
    match step {
        Step::Issue(issue) => issue.op.proxy < proxy,
        _ => false,
    }
}

/// The level of a request.
pub(crate) fn level_of(steps: &[Step], op: OpId) -> usize
    ensures { result ≡ level_of steps.now op }
{
    let above = steps.iter().filter(|step| stands_above(step, op)).count();
    plus(above, op.proxy as usize + 1)
}

/// The first level of a proxy's lane.
pub(crate) fn base_of(steps: &[Step], proxy: u32) -> usize
    ensures { result ≡ base_of steps.now proxy }
{
    let above = steps
        .iter()
        .filter(|step| is_issue_below(step, proxy))
        .count();
    plus(above, proxy as usize)
}

/// How many levels a proxy's lane has.
pub(crate) fn height_of(steps: &[Step], proxy: u32) -> usize
    ensures { result ≡ height_of steps.now proxy }
{
    let requests = steps.iter().filter(|step| is_issue_at(step, proxy)).count();
    plus(requests, 1)
}

/// How many levels the lanes of so many proxies have.
pub(crate) fn levels_of(steps: &[Step], proxies: usize) -> usize
    ensures { result ≡ levels_of steps.now proxies }
{
    let requests = steps.iter().filter(|step| is_issue(step)).count();
    plus(requests, proxies)
}
