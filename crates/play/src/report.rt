//! What is printed.

use driver::command::{Answer, Command, Outcome};
use pools::request::Request;
use rosters::roster::Roster;
use share_law::bound_in_sectors;
use std::alloc::{AllocError, Global};

/// What is reported of the applications, kept aside, since the roster is used up by its sealing.
#[derive(Drop)]
pub struct Shares {
    total_weight: u32,
    members: Vec<Member>,
}

/// An application's figures.
#[derive(Clone, Copy)]
struct Member {
    weight: u8,
    bound: u64,
}

impl Shares {
    pub fn of(heap: Global, roster: &Roster) -> Result<Shares, AllocError> {
        // By the numbers, since the roster lends no slice of its applications: it is asked by number.
        let members = (0..roster.len())
            .filter_map(|number| {
                Some(Member {
                    weight: roster.application(number)?.weight,
                    bound: bound_in_sectors(roster, number)?,
                })
            })
            .collect(heap)?;
        Ok(Shares {
            total_weight: roster.total_weight(),
            members,
        })
    }

    /// Each application's sectors beside its share of all that were sent, and its bound.
    pub fn print(&self, rt: &HostRuntime, outcomes: &[Outcome]) -> anyhow::Result<()> {
        let total_weight = u64::from(self.total_weight);
        let all = sectors_sent(outcomes, |_| true);
        for (number, Member { weight, bound }) in self.members.iter().enumerate() {
            let sent = sectors_sent(outcomes, |request| {
                usize::from(request.application) == number
            });
            let share = all
                .saturating_mul(u64::from(*weight))
                .checked_div(total_weight)
                .unwrap_or(0);
            println!(rt;
                "app {number} weight {weight} sent {sent} of {all}, share {share}, never behind by more than {bound}"
            )?;
        }
        Ok(())
    }
}

pub fn print_outcomes(
    rt: &HostRuntime,
    commands: &[Command],
    outcomes: &[Outcome],
) -> anyhow::Result<()> {
    for (command, outcome) in commands.iter().zip(outcomes) {
        let time = command.time();
        match outcome {
            Ok(answer) => println!(rt; "{time} {answer}")?,
            Err(refused) => println!(rt; "{time} {refused}")?,
        }
    }
    Ok(())
}

/// The sectors of the sent requests that are counted.
fn sectors_sent<F: Fn(&Request) -> bool>(outcomes: &[Outcome], counted: F) -> u64
    requires { F.IsAlwaysCallable counted }
{
    outcomes
        .iter()
        .filter_map(|outcome| match outcome {
            Ok(Answer::Sent(request)) => Some(request),
            _ => None,
        })
        .filter(|request| counted(request))
        .fold(
            0u64,
            |sum, request| sum.saturating_add(u64::from(request.size)),
        )
}
