// Machines with generalized Rabin pairs, their runs, and the laws of judging them.
#![tactic(auto)]

ghost use Rattle.machine.specs.Laws.{JudgedAlike, Looping, OneJudgement};

// A round has one judgement, told by the stretch between two equal states.
pub fn judging_stands<S>()
    ensures unique { OneJudgement S }
    ensures loops { Looping S }
{}

// Machines whose runs correspond are judged alike.
pub fn alike_stands<S, T>()
    ensures { JudgedAlike S T }
{}
