//! What stops a command once its words were read.
ghost use Rattle.std.specs.Prelude.{◌≡◌};

use mr_configs::PlanError;
use mr_node::NodeError;
use mr_phases::ScheduleError;
use mr_pools::PoolError;
use mr_servers::SeedFault;
use mr_text::{ReadFault, Sink, TextError};
use mr_words::{PrintFault, node_line, plan_line, pool_line, schedule_line, text_line};
use std::alloc::AllocError;
use thiserror::Error;

/// Why a command stopped. Its text says it without what is printed around it.
#[derive(Debug, Drop, Error)]
pub enum Fault {
    /// Memory was refused to the program itself.
    #[error("memory")]
    Memory,
    /// The standard input failed, or no seed could be had.
    #[error("input")]
    Input,
    /// The standard output failed.
    #[error("output")]
    Output,
    /// A file can't be read. This is the line that is printed of it, whole.
    #[error("{0}")]
    File(String),
    /// No socket can be opened. This is the line that is printed of it, whole.
    #[error("{0}")]
    Net(String),
    /// The configuration was refused.
    #[error("plan: {0}")]
    Plan(PlanError),
    /// A pool that words say was refused, or the pools together.
    #[error("pools: {0}")]
    Pools(PoolError),
    /// The schedule that words say was refused.
    #[error("phases: {0}")]
    Phases(ScheduleError),
    /// The node was refused.
    #[error("node: {0}")]
    Node(NodeError),
    /// The text of the request was refused.
    #[error("text: {0}")]
    Text(TextError),
}

impl Fault {
    ghost use Rattle.mr_tool.specs.Devices.{IsToldAtOnce};
    ghost use Rattle.mr_tool.specs.Fault.{fault_line};

    /// The line that is printed: the layer that found the fault, and the number and the name of the refusal.
    pub fn line(&self) -> &str
        ensures { result.now ≡ fault_line self.now }
    {
        match self {
            Fault::Memory => "migctl: memory\n",
            Fault::Input => "migctl: input\n",
            Fault::Output => "migctl: output\n",
            Fault::File(line) => line.as_str(),
            Fault::Net(line) => line.as_str(),
            Fault::Plan(refusal) => plan_line(*refusal),
            Fault::Pools(refusal) => pool_line(*refusal),
            Fault::Phases(refusal) => schedule_line(*refusal),
            Fault::Node(refusal) => node_line(*refusal),
            Fault::Text(refusal) => text_line(*refusal),
        }
    }

    /// Tells the line in one call. That its place fails too can't be told anywhere.
    pub fn tell<F: Sink>(&self, faults: &mut F)
        ensures { IsToldAtOnce (fault_line self.now) (F.told faults.old) (F.told faults.new) }
    {
        let _ = faults.write_all(self.line().as_bytes());
    }
}

impl From<AllocError> for Fault {
    ghost use Rattle.std.specs.Prelude.{◌≡◌};
    ghost use Rattle.mr_tool.specs.declared.fault.Fault.TheVariants.{Memory};

    ghost from_gives = { λ _ fault. fault ≡ Memory };

    fn from(_error: AllocError) -> Fault {
        Fault::Memory
    }
}

impl From<ReadFault> for Fault {
    ghost use Rattle.std.specs.Prelude.{◌≡◌};
    ghost use Rattle.mr_tool.specs.declared.fault.Fault.TheVariants.{Input};

    ghost from_gives = { λ _ fault. fault ≡ Input };

    fn from(_fault: ReadFault) -> Fault {
        Fault::Input
    }
}

impl From<SeedFault> for Fault {
    ghost use Rattle.std.specs.Prelude.{◌≡◌};
    ghost use Rattle.mr_tool.specs.declared.fault.Fault.TheVariants.{Input};

    ghost from_gives = { λ _ fault. fault ≡ Input };

    fn from(_fault: SeedFault) -> Fault {
        Fault::Input
    }
}

impl From<PrintFault> for Fault {
    ghost use Rattle.std.specs.Prelude.{◌≡◌};
    ghost use Rattle.mr_tool.specs.Fault.{fault_of_printing};

    ghost from_gives = { λ failed fault. fault ≡ fault_of_printing failed };

    fn from(failed: PrintFault) -> Fault {
        match failed {
            PrintFault::Memory => Fault::Memory,
            PrintFault::Write => Fault::Output,
        }
    }
}

impl From<PlanError> for Fault {
    ghost use Rattle.std.specs.Prelude.{◌≡◌};
    ghost use Rattle.mr_tool.specs.declared.fault.Fault.TheVariants.{Plan};

    ghost from_gives = { λ refusal fault. fault ≡ Plan refusal };

    fn from(refusal: PlanError) -> Fault {
        Fault::Plan(refusal)
    }
}

impl From<PoolError> for Fault {
    ghost use Rattle.std.specs.Prelude.{◌≡◌};
    ghost use Rattle.mr_tool.specs.declared.fault.Fault.TheVariants.{Pools};

    ghost from_gives = { λ refusal fault. fault ≡ Pools refusal };

    fn from(refusal: PoolError) -> Fault {
        Fault::Pools(refusal)
    }
}

impl From<ScheduleError> for Fault {
    ghost use Rattle.std.specs.Prelude.{◌≡◌};
    ghost use Rattle.mr_tool.specs.declared.fault.Fault.TheVariants.{Phases};

    ghost from_gives = { λ refusal fault. fault ≡ Phases refusal };

    fn from(refusal: ScheduleError) -> Fault {
        Fault::Phases(refusal)
    }
}

impl From<NodeError> for Fault {
    ghost use Rattle.std.specs.Prelude.{◌≡◌};
    ghost use Rattle.mr_tool.specs.declared.fault.Fault.TheVariants.{Node};

    ghost from_gives = { λ refusal fault. fault ≡ Node refusal };

    fn from(refusal: NodeError) -> Fault {
        Fault::Node(refusal)
    }
}

impl From<TextError> for Fault {
    ghost use Rattle.std.specs.Prelude.{◌≡◌};
    ghost use Rattle.mr_tool.specs.declared.fault.Fault.TheVariants.{Text};

    ghost from_gives = { λ refusal fault. fault ≡ Text refusal };

    fn from(refusal: TextError) -> Fault {
        Fault::Text(refusal)
    }
}
