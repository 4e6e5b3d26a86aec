//! The lines that are printed of refusals: the layer that refuses, and the number and the name of the refusal.
ghost use Rattle.std.specs.Prelude.{◌≡◌};
ghost use Rattle.mr_words.specs.Lines.{text_fault_line, pool_fault_line, schedule_fault_line, node_fault_line, plan_fault_line};

use mr_configs::PlanError;
use mr_node::NodeError;
use mr_phases::ScheduleError;
use mr_pools::PoolError;
use mr_text::TextError;

/// The line of a refusal of `mr_text`.
pub fn text_line(refusal: TextError) -> &'static str
    ensures { result.now ≡ text_fault_line refusal }
{
    match refusal {
        TextError::LineTooLong => "migctl: text 1 LineTooLong\n",
        TextError::BadKey => "migctl: text 2 BadKey\n",
        TextError::BadNumber => "migctl: text 3 BadNumber\n",
        TextError::WrongWords => "migctl: text 4 WrongWords\n",
        TextError::DataTooLong => "migctl: text 5 DataTooLong\n",
        TextError::BadDataEnd => "migctl: text 6 BadDataEnd\n",
        TextError::UnknownCommand { .. } => "migctl: text 7 UnknownCommand\n",
        TextError::Truncated => "migctl: text 8 Truncated\n",
        TextError::Closed => "migctl: text 9 Closed\n",
        TextError::OutOfMemory => "migctl: text 10 OutOfMemory\n",
    }
}

/// The line of a refusal of `mr_pools`.
pub fn pool_line(refusal: PoolError) -> &'static str
    ensures { result.now ≡ pool_fault_line refusal }
{
    match refusal {
        PoolError::EmptyPool => "migctl: pools 1 EmptyPool\n",
        PoolError::TooManyNodes => "migctl: pools 2 TooManyNodes\n",
        PoolError::BadName => "migctl: pools 3 BadName\n",
        PoolError::RepeatedName => "migctl: pools 4 RepeatedName\n",
        PoolError::SharedName => "migctl: pools 5 SharedName\n",
        PoolError::OutOfMemory => "migctl: pools 6 OutOfMemory\n",
        PoolError::TooManyPools => "migctl: pools 7 TooManyPools\n",
    }
}

/// The line of a refusal of `mr_phases`.
pub fn schedule_line(refusal: ScheduleError) -> &'static str
    ensures { result.now ≡ schedule_fault_line refusal }
{
    match refusal {
        ScheduleError::ZeroInterval => "migctl: phases 1 ZeroInterval\n",
        ScheduleError::TooLate => "migctl: phases 2 TooLate\n",
        ScheduleError::TooSoon => "migctl: phases 3 TooSoon\n",
        ScheduleError::TooManyHops => "migctl: phases 4 TooManyHops\n",
    }
}

/// The line of a refusal of `mr_node`.
pub fn node_line(refusal: NodeError) -> &'static str
    ensures { result.now ≡ node_fault_line refusal }
{
    match refusal {
        NodeError::ZeroCapacity => "migctl: node 1 ZeroCapacity\n",
        NodeError::OutOfMemory => "migctl: node 2 OutOfMemory\n",
        NodeError::ReadFault => "migctl: node 3 ReadFault\n",
        NodeError::WriteFault => "migctl: node 4 WriteFault\n",
        NodeError::TurnsSpent => "migctl: node 5 TurnsSpent\n",
    }
}

/// The line of a refusal of `mr_plan`, without what it carries.
pub fn plan_line(refusal: PlanError) -> &'static str
    ensures { result.now ≡ plan_fault_line refusal }
{
    match refusal {
        PlanError::NotJson => "migctl: plan 1 NotJson\n",
        PlanError::WrongKind => "migctl: plan 2 WrongKind\n",
        PlanError::MissingKey => "migctl: plan 3 MissingKey\n",
        PlanError::UnknownKey => "migctl: plan 4 UnknownKey\n",
        PlanError::BadPool(_) => "migctl: plan 5 BadPool\n",
        PlanError::BadRoute => "migctl: plan 6 BadRoute\n",
        PlanError::BadSchedule(_) => "migctl: plan 7 BadSchedule\n",
        PlanError::BadHash => "migctl: plan 8 BadHash\n",
        PlanError::BadSetup(_) => "migctl: plan 9 BadSetup\n",
        PlanError::BadEvent(_) => "migctl: plan 10 BadEvent\n",
        PlanError::TooLarge => "migctl: plan 11 TooLarge\n",
        PlanError::EventRefused(_, _) => "migctl: plan 12 EventRefused\n",
        PlanError::OutOfMemory => "migctl: plan 13 OutOfMemory\n",
    }
}
