//! The share law over a small model of virtual times: what the stamp table keeps beside positions and
//! budgets is left out, so that the argument stands alone.

#![tactic(auto)]

ghost use Rattle.share_model.specs.Stretch.{LeadLagLaw, ShareLaw, PairLaw, LowLaw};

/// Computes nothing: its contract is the law, so that the crate is not proved without it.
pub fn law_stands()
    ensures leads { LeadLagLaw }
    ensures shares { ShareLaw }
    ensures pairs { PairLaw }
    ensures low { LowLaw }
{}
