// What a rule's text spells, and what reading and writing it come to.
#![tactic(auto)]

ghost use Rattle.grammar.specs.Laws.{EndingOrder, Reading, RoundTrip};

// Each outcome of reading comes exactly under its own condition.
pub fn reading_stands()
    ensures { Reading }
{}

// What was read reads the same when it is written again.
pub fn round_trip_stands()
    ensures { RoundTrip }
{}

// The places where subformulae end come in the order of their last marks, inner before outer.
pub fn ending_order_stands()
    ensures { EndingOrder }
{}
