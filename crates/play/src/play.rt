//! The script: what is read, and how it is run.

use crate::fault::Fault;
use crate::line::Line;
use crate::report::{Shares, print_outcomes};
use driver::command::{Answer, Command, Outcome};
use driver::script::run;
use pools::c_look::CLook;
use pools::feedback::Feedback;
use pools::first_come::FirstCome;
use pools::pool::Pool;
use pools::rule::BudgetRule;
use pools::steady::Steady;
use records::tables::{PoolCode, RuleCode};
use rosters::roster::Roster;
use std::alloc::{AllocError, Global};

#[derive(Drop)]
struct Script {
    roster: Roster,
    pool: PoolCode,
    rule: RuleCode,
    commands: Vec<Command>,
}

/// The commands of a script, and what each came to.
#[derive(Drop)]
struct History {
    commands: Vec<Command>,
    outcomes: Vec<Outcome>,
}

pub fn run_script(rt: &HostRuntime) -> anyhow::Result<()> {
    let script = Script::read(rt)?;
    let shares = Shares::of(rt.alloc(), &script.roster)?;
    let History { commands, outcomes } = script.run(rt.alloc())?;
    print_outcomes(rt, &commands, &outcomes)?;
    shares.print(rt, &outcomes)
}

impl Script {
    fn new(heap: Global) -> Result<Script, AllocError> {
        Ok(Script {
            roster: Roster::new(heap)?,
            pool: PoolCode::FirstCome,
            rule: RuleCode::Steady,
            commands: Vec::new(heap),
        })
    }

    /// Reads every line; one that cannot be read or is refused is reported, and passed over.
    fn read(rt: &HostRuntime) -> anyhow::Result<Script> {
        let mut script = Script::new(rt.alloc())?;
        for (number, line) in (1u64..).zip(rt.lines(rt.alloc())) {
            let text = line?;
            match script.enter(&text) {
                Ok(()) => {}
                Err(Fault::OutOfMemory(error)) => return Err(error.into()),
                Err(fault) => println!(rt; "line {number}: {fault}")?,
            }
        }
        Ok(script)
    }

    /// Enters one line; a line that asks for nothing changes nothing.
    fn enter(&mut self, text: &str) -> Result<(), Fault> {
        match Line::parse(text)? {
            None => {}
            Some(Line::Hold(ticks)) => self.roster.set_hold(ticks)?,
            Some(Line::Application { weight, limit }) => {
                self.roster.add(weight, limit)?;
            }
            Some(Line::Pool(pool)) => self.pool = pool,
            Some(Line::Rule(rule)) => self.rule = rule,
            Some(Line::Call(command)) => self.commands.push(command)?,
        }
        Ok(())
    }

    /// Runs the commands by the pool and the rule that the script names.
    // A match of types, and no dyn or enum: what a pool chooses and a rule gives are ghost members of its type.
    fn run(self, heap: Global) -> Result<History, AllocError> {
        match (self.pool, self.rule) {
            (PoolCode::FirstCome, RuleCode::Steady) => {
                self.run_by(heap, FirstCome::new(heap)?, Steady)
            }
            (PoolCode::FirstCome, RuleCode::Feedback) => {
                self.run_by(heap, FirstCome::new(heap)?, Feedback)
            }
            (PoolCode::CLook, RuleCode::Steady) => self.run_by(heap, CLook::new(heap)?, Steady),
            (PoolCode::CLook, RuleCode::Feedback) => self.run_by(heap, CLook::new(heap)?, Feedback),
        }
    }

    /// Seals the roster with a pool and a rule, and makes the calls.
    fn run_by<P: Pool + Drop, R: BudgetRule + Drop>(
        self,
        heap: Global,
        pool: P,
        rule: R,
    ) -> Result<History, AllocError> {
        let Script {
            roster,
            commands,
            ..
        } = self;
        let mut outcomes = vec![in heap; Ok(Answer::Nothing); commands.len()]?;
        run(roster, pool, rule, &commands, &mut outcomes);
        Ok(History { commands, outcomes })
    }
}
