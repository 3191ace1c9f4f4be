//! Reads a head position, waiting requests, a limit and the ends of turns, and prints in which order
//! each pool would send the requests, and which budgets each rule would give.

#![tactic(auto)]

mod budgets;
mod fault;
mod line;
mod sending;
mod workload;

use crate::budgets::budgets;
use crate::fault::Fault;
use crate::line::Line;
use crate::sending::sending_order;
use crate::workload::Workload;
use pools::c_look::CLook;
use pools::feedback::Feedback;
use pools::first_come::FirstCome;
use pools::pool::Pool;
use pools::rule::BudgetRule;
use pools::steady::Steady;
use std::io;

fn main(rt: HostRuntime) -> anyhow::Result<()> {
    run(&rt)
}

fn run(rt: &HostRuntime) -> anyhow::Result<()> {
    let workload = read(rt)?;
    print_order(rt, "first-come", FirstCome::new(rt.alloc())?, &workload)?;
    print_order(rt, "C-LOOK", CLook::new(rt.alloc())?, &workload)?;
    if let Some(limit) = workload.limit {
        print_budgets(rt, "steady", &Steady, limit, &workload)?;
        print_budgets(rt, "feedback", &Feedback, limit, &workload)?;
    }
    Ok(())
}

/// Reads every line; one that cannot be read is reported, and passed over.
fn read(rt: &HostRuntime) -> anyhow::Result<Workload> {
    let mut workload = Workload::new(rt.alloc());
    for (number, line) in (1u64..).zip(rt.lines(rt.alloc())) {
        match read_line(&mut workload, line) {
            Ok(()) => {}
            Err(fault @ (Fault::Unreadable(_) | Fault::NoRoom)) => {
                println!(rt; "line {number}: {fault}")?;
            }
            Err(fault) => return Err(fault.into()),
        }
    }
    Ok(workload)
}

fn read_line(workload: &mut Workload, line: io::Result<String>) -> Result<(), Fault> {
    if let Some(line) = Line::parse(&line?)? {
        workload.add(line)?;
    }
    Ok(())
}

fn print_order<P: Pool + Drop>(
    rt: &HostRuntime,
    name: &str,
    mut pool: P,
    workload: &Workload,
) -> anyhow::Result<()> {
    for request in &workload.requests {
        let _ = pool.put(*request);
    }
    print!(rt; "{name}:")?;
    for request in &sending_order(rt.alloc(), &mut pool, workload.head)? {
        print!(rt; " {}+{}", request.first, request.size)?;
    }
    println!(rt; "")?;
    Ok(())
}

fn print_budgets<R: BudgetRule>(
    rt: &HostRuntime,
    name: &str,
    rule: &R,
    limit: u32,
    workload: &Workload,
) -> anyhow::Result<()> {
    print!(rt; "{name}, limit {limit}:")?;
    for budget in &budgets(rt.alloc(), rule, limit, &workload.reasons)? {
        print!(rt; " {budget}")?;
    }
    println!(rt; "")?;
    Ok(())
}
