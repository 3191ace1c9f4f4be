//! What is printed of a roster.

use crate::figures::share;
use rosters::application::Application;
use rosters::cost::cost_of_sector;
use rosters::roster::Roster;
use share_law::bound_in_sectors;
use std::fmt;

/// The roster's own figures, and those of each application.
pub fn print_sheet(rt: &HostRuntime, roster: &Roster) -> anyhow::Result<()> {
    let total = roster.total_weight();
    let most = roster.largest_limit();
    let hold = roster.hold();
    println!(rt; "total weight T   {total}")?;
    println!(rt; "largest limit M  {most} sectors")?;
    println!(rt; "hold             {hold} ticks")?;
    println!(rt; "app  weight  limit    share  cost of a sector  falls behind by at most")?;
    // By the numbers, since the roster lends no slice of its applications: it is asked by number.
    for row in (0..roster.len()).filter_map(|number| Row::new(roster, number)) {
        println!(rt; "{row}")?;
    }
    Ok(())
}

/// What is said of one application.
#[derive(Clone, Copy, Debug)]
struct Row {
    number: usize,
    weight: u8,
    limit: u32,
    /// Of the total weight, in hundredths of a percent.
    share: u64,
    cost: u64,
    bound: u64,
}

impl Row {
    /// None for a number that is not on the roster.
    fn new(roster: &Roster, number: usize) -> Option<Row> {
        let Application { weight, limit } = roster.application(number)?;
        let total = roster.total_weight();
        Some(Row {
            number,
            weight,
            limit,
            share: share(weight, total),
            cost: cost_of_sector(total, weight)?,
            bound: bound_in_sectors(roster, number)?,
        })
    }
}

impl fmt::Display for Row {
    fn fmt<W: fmt::Write>(&self, f: &mut fmt::Formatter<W>) -> fmt::Result {
        let Row {
            number,
            weight,
            limit,
            share,
            cost,
            bound,
        } = *self;
        let percent = share / 100;
        let hundredths = share % 100;
        write!(
            f,
            "{number:>3}  {weight:>6}  {limit:>5}  {percent:>3}.{hundredths:02}%  {cost:>16}  {bound:>14} sectors"
        )
    }
}
