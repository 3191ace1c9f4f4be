//! Worked figures. Each row is computed by the definitions that the contracts of the code cite.

#![tactic(auto)]

ghost use Rattle.figures.specs.Figures.{Figures};

/// Computes nothing: its contract is the table.
pub fn figures_stand()
    ensures { Figures }
{}
