// What the judge says of a round.
ghost use Rattle.std.specs.Prelude.{Some};
ghost use Rattle.acceptor.specs.Printed.{judgement_text};

use std::fmt;

#[derive(Clone, Copy, Debug, PartialEq, Eq)]
pub struct Judgement {
    // the first accepting pair, where there is one
    pub accepting: Option<usize>,
    pub passes: usize,
}

impl fmt::Display for Judgement {
    ghost output = { λ j. Some (judgement_text j.accepting j.passes) };

    fn fmt<W: fmt::Write>(&self, f: &mut fmt::Formatter<W>) -> fmt::Result {
        let passes = self.passes;
        match self.accepting {
            Some(pair) => write!(f, "yes pair {pair} passes {passes}"),
            None => write!(f, "no passes {passes}"),
        }
    }
}
