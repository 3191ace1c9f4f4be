//! Reads a roster as text and prints the figures that its data sheet starts from.

#![tactic(auto)]

mod figures;
mod line;
mod report;
mod sheet;

fn main(rt: HostRuntime) -> anyhow::Result<()> {
    sheet::run(&rt)
}
