//! The plan of one request: where it goes at a reading of a clock.
ghost use Rattle.std.specs.Prelude.{◌≡◌, IfOk, IfErr};
ghost use Rattle.std.specs.List.{All};
ghost use Rattle.mr_proxy.specs.Sheets.{IsPlaced};
ghost use Rattle.mr_configs.specs.Plan.{plan_of};
ghost use Rattle.mr_configs.specs.declared.error.PlanError.TheVariants.{OutOfMemory};

use crate::config::Config;
use crate::error::PlanError;
use mr_phases::{PhaseName, judge};
use mr_proxy::{Leg, LegSheet, ProxyCore, ProxyError};
use mr_text::Request;
use std::alloc::{AllocError, Global};
use std::marker::Model;

/// Where a request goes: the hop in force at a reading and its phase, and each leg that is sent.
#[derive(Debug, Drop)]
pub struct RequestPlan {
    hop: u32,
    phase: PhaseName,
    reading: u64,
    sheets: Vec<LegSheet>,
}

impl Model for RequestPlan {
    ghost use Rattle.mr_configs.specs.Plan.{PlanView};

    ghost Value = { PlanView };

    ghost view = { λ p. record { hop = p.hop; phase = p.phase; reading = p.reading; sheets = p.sheets.items } };
}

impl RequestPlan {
    /// The number of the hop in force at the reading.
    pub fn hop(&self) -> u32
        ensures { result ≡ self.now.hop }
    {
        self.hop
    }

    /// The phase of that hop at the reading.
    pub fn phase(&self) -> PhaseName
        ensures { result ≡ self.now.phase }
    {
        self.phase
    }

    /// The reading that was judged, in seconds since the epoch.
    pub fn reading(&self) -> u64
        ensures { result ≡ self.now.reading }
    {
        self.reading
    }

    /// What is sent, in order of place.
    pub fn sheets(&self) -> &[LegSheet]
        ensures { result.now ≡ self.now.sheets }
    {
        self.sheets.as_slice()
    }

    /// An equal plan.
    pub fn copy(&self) -> Result<RequestPlan, AllocError>
        ensures { IfOk result (λ plan. plan ≡ self.now) }
    {
        Ok(RequestPlan {
            hop: self.hop,
            phase: self.phase,
            reading: self.reading,
            sheets: copied_sheets(&self.sheets)?,
        })
    }
}

/// Equal sheets.
fn copied_sheets(sheets: &Vec<LegSheet>) -> Result<Vec<LegSheet>, AllocError>
    ensures { IfOk result (λ copied. copied.items ≡ sheets.now.items) }
{
    let mut copied = Vec::with_capacity(*sheets.allocator(), sheets.len())?;
    for sheet in sheets {
        copied.push(sheet.copy()?)?;
    }
    Ok(copied)
}

/// The sheets of legs, in order.
fn sheets_of(alloc: Global, legs: Vec<Leg>) -> Result<Vec<LegSheet>, AllocError>
    ensures { IfOk result (λ sheets. sheets.items ≡ legs.items) }
{
    let mut sheets = Vec::with_capacity(alloc, legs.len())?;
    for leg in legs {
        sheets.push(leg.into_sheet())?;
    }
    Ok(sheets)
}

/// The plan of a request at a reading of a clock, in seconds since the epoch: the legs of a proxy that accepted no
/// request yet. A quit isn't issued, since it has none.
pub fn plan(
    alloc: Global,
    config: &Config,
    at: u64,
    request: Request,
) -> Result<RequestPlan, PlanError>
    ensures plan { IfOk result (λ plan. plan ≡ plan_of config.now at request) }
    ensures nodes { IfOk result (λ plan. All (IsPlaced config.now.routing) plan.sheets) }
    ensures refused { IfErr result (λ e. e ≡ OutOfMemory) }
{
    let judged = judge(config.schedule(), at);
    let hop = judged.hop();
    let phase = judged.name();
    if let Request::Quit = request {
        return Ok(RequestPlan {
            hop,
            phase,
            reading: at,
            sheets: Vec::new(alloc),
        });
    }
    let routing = config.routing().copy()?;
    let mut core = ProxyCore::new(alloc, 0, 0, routing, config.schedule(), 1);
    match core.issue(at, request) {
        Ok(issued) => Ok(RequestPlan {
            hop,
            phase,
            reading: at,
            sheets: sheets_of(alloc, issued.legs)?,
        }),
        Err((ProxyError::OutOfMemory, _)) => Err(PlanError::OutOfMemory),
        Err((ProxyError::NoRoom | ProxyError::NumbersSpent | ProxyError::NoSuchOp, _)) => {
            unreachable!()
        }
    }
}
