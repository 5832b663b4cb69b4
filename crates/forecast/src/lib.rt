// Forecasts, and the theorem that the pairs of a rule say what the rule says.
#![tactic(auto)]

ghost use Rattle.forecast.specs.Laws.{KeepsLimits, Recasting, SaysTheRule};

// The run of a rule's machine on a round is accepted by some pair exactly when the round satisfies the rule.
pub fn pairs_stand<S>()
    ensures says { SaysTheRule S }
    ensures limits { KeepsLimits S }
    ensures recasts { Recasting }
{}
