//! A trace file in, its listing out.

ghost use Rattle.std.specs.Prelude.{◌≡◌, ◌≤◌, length, MatchResult, OnOk};
ghost use Rattle.replays.specs.Asked.{choice_of, first_budget, next_budget};
ghost use Rattle.replays.specs.Replays.{FilePromises, Put, Replayed};

use crate::unlisted::Unlisted;
use driver::session::Session;
use listing::lines::put_fault;
use pools::c_look::CLook;
use pools::feedback::Feedback;
use pools::first_come::FirstCome;
use pools::pool::Pool;
use pools::rule::BudgetRule;
use pools::steady::Steady;
use scheduler::scheduler::seal::seal;
use std::alloc::{AllocError, Global};
use trace::tables::{PoolCode, RuleCode};

mod playing;
mod shares;
mod workload;

use playing::{Played, play};
use shares::put_shares;
use workload::Workload;

/// No listing is longer: 976 lines of at most 64 bytes.
pub const LISTING_BYTES: usize = 62_464;

/// Replays a trace file, and lists what comes of each event, from the buffer's beginning on; answers how
/// many bytes that are. Of a file that has a fault the listing is the fault.
pub fn replay(heap: Global, bytes: &[u8], out: &mut [u8]) -> Result<usize, Unlisted>
    ensures answer { Replayed bytes.now out.old result out.new }
    ensures promises { OnOk result (FilePromises bytes.now) }
{
    if out.len() < LISTING_BYTES {
        return Err(Unlisted::Buffer);
    }
    match Workload::read(bytes) {
        Ok(workload) => Ok(list_by_settings(heap, &workload, out)?),
        Err(fault) => Ok(put_fault(out, fault)),
    }
}

/// By the pool and the rule that the file names.
// A match of types, and no dyn: what a pool chooses and a rule gives are ghost members of its type, and the contract of `list` names them.
fn list_by_settings(heap: Global, workload: &Workload, out: &mut [u8]) -> Result<usize, AllocError>
    requires { 62464 ≤ length out.old }
    ensures { MatchResult result (λ n. Put (choice_of workload.now.settings.pool) (first_budget workload.now.settings.rule) (next_budget workload.now.settings.rule) workload.now out.old n out.new) (λ _. out.new ≡ out.old) }
{
    let settings = workload.settings();
    match (settings.pool, settings.rule) {
        (PoolCode::FirstCome, RuleCode::Steady) => {
            list(heap, workload, FirstCome::new(heap)?, Steady, out)
        }
        (PoolCode::FirstCome, RuleCode::Feedback) => {
            list(heap, workload, FirstCome::new(heap)?, Feedback, out)
        }
        (PoolCode::CLook, RuleCode::Steady) => {
            list(heap, workload, CLook::new(heap)?, Steady, out)
        }
        (PoolCode::CLook, RuleCode::Feedback) => {
            list(heap, workload, CLook::new(heap)?, Feedback, out)
        }
    }
}

/// Seals the roster with a pool and a rule, and lists what comes of the events.
fn list<P: Pool + Drop, R: BudgetRule + Drop>(
    heap: Global,
    workload: &Workload,
    pool: P,
    rule: R,
    out: &mut [u8],
) -> Result<usize, AllocError>
    requires { 62464 ≤ length out.old }
    ensures { MatchResult result (λ n. Put P.Pool.choice R.BudgetRule.first_budget R.BudgetRule.next_budget workload.now out.old n out.new) (λ _. out.new ≡ out.old) }
{
    let members = workload.roster(heap)?;
    let mut session = Session::new(seal(members, pool, rule));
    let Played { end, sent } = play(&mut session, workload, out);
    session.finish();
    Ok(put_shares(workload, &sent, out, end))
}
