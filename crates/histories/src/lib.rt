//! What is promised of every history of a scheduler's calls: the definitions are in `specs/`, and the
//! proof is in the contract of one function.

#![tactic(auto)]

ghost use Rattle.histories.specs.Promises.{AllPromises};
ghost use Rattle.histories.specs.Reachable.{AllInBounds};
ghost use Rattle.histories.specs.Example.{Replayed};

/// Computes nothing: its contract is what holds for every pool, every budget rule, every roster and
/// every history of calls.
pub fn promises_stand()
    ensures promises { AllPromises }
    ensures bounds { AllInBounds }
    ensures example { Replayed }
{}
