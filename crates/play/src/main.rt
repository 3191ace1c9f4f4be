//! Runs a scripted history of calls on a roster, and prints every answer and each application's sectors.

#![tactic(auto)]

mod fault;
mod line;
mod play;
mod report;

fn main(rt: HostRuntime) -> anyhow::Result<()> {
    play::run_script(&rt)
}
