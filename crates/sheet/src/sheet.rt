//! The sheet: a roster is read line by line, and its figures are printed.

use crate::line::{Line, Unreadable};
use crate::report::print_sheet;
use rosters::refusal::Refusal;
use rosters::roster::Roster;
use std::fmt;

pub fn run(rt: &HostRuntime) -> anyhow::Result<()> {
    let mut roster = Roster::new(rt.alloc())?;
    for (number, line) in (1u64..).zip(rt.lines(rt.alloc())) {
        let text = line?;
        if let Err(fault) = enter(&mut roster, &text) {
            println!(rt; "line {number}: {fault}")?;
        }
    }
    print_sheet(rt, &roster)
}

/// Why a line is not entered.
#[derive(Clone, Copy, Debug)]
enum Fault {
    Unreadable(Unreadable),
    Refused(Refusal),
}

impl From<Unreadable> for Fault {
    fn from(unreadable: Unreadable) -> Fault {
        Fault::Unreadable(unreadable)
    }
}

impl From<Refusal> for Fault {
    fn from(refusal: Refusal) -> Fault {
        Fault::Refused(refusal)
    }
}

impl fmt::Display for Fault {
    fn fmt<W: fmt::Write>(&self, f: &mut fmt::Formatter<W>) -> fmt::Result {
        match self {
            Fault::Unreadable(unreadable) => unreadable.fmt(f),
            Fault::Refused(refusal) => write!(f, "refused ({}): {refusal}", u8::from(*refusal)),
        }
    }
}

/// Enters one line into the roster; a line that asks for nothing changes nothing.
fn enter(roster: &mut Roster, text: &str) -> Result<(), Fault> {
    match Line::parse(text)? {
        None => {}
        Some(Line::Hold(ticks)) => roster.set_hold(ticks)?,
        Some(Line::Application { weight, limit }) => {
            roster.add(weight, limit)?;
        }
    }
    Ok(())
}
