// Every refusal of the panel: what was wrong, the layer that found it, and a place.
#![tactic(auto)]

ghost use Rattle.std.specs.Prelude.{◌≡◌, Some};
ghost use Rattle.refusal.specs.Answers.{number, layer_name};
ghost use Rattle.refusal.specs.Printed.{refusal_text};

use std::fmt;

// What was wrong, with the number that a report prints.
#[derive(Clone, Copy, Debug, PartialEq, Eq)]
pub enum Cause {
    MalformedName = 1,
    RepeatedName = 2,
    ExcessName = 3,
    LongText = 4,
    UnexpectedMark = 5,
    UndeclaredName = 6,
    DeepRule = 7,
    ManySubformulae = 8,
    ManyTemporal = 9,
    EmptyCycle = 10,
    LongRound = 11,
    ForeignBit = 12,
    ManyPairs = 13,
    FullTable = 14,
    ShortTable = 15,
    OtherTables = 16,
    StateWaits = 17,
    NothingWaits = 18,
    FullTrail = 19,
    ShortOutput = 20,
    BadField = 21,
}

#[derive(Clone, Copy, Debug, PartialEq, Eq)]
pub enum Layer {
    Names,
    Rule,
    Round,
    Turn,
    Build,
    Judge,
    Saved,
    Sheet,
}

#[derive(Clone, Copy, Debug, PartialEq, Eq)]
pub struct Refusal {
    pub cause: Cause,
    pub layer: Layer,
    pub place: usize,
}

impl Refusal {
    pub fn new(cause: Cause, layer: Layer, place: usize) -> Refusal
        ensures { result ≡ record { cause = cause; layer = layer; place = place } }
    {
        Refusal {
            cause,
            layer,
            place,
        }
    }
}

impl Cause {
    // The number that a report prints.
    pub fn number(self) -> u8
        ensures { result ≡ number self }
    {
        self as u8
    }
}

impl Layer {
    // The word that a report prints: a table of words, which no derive prints so.
    pub fn name(self) -> &'static str
        ensures { result.now ≡ layer_name self }
    {
        match self {
            Layer::Names => "names",
            Layer::Rule => "rule",
            Layer::Round => "round",
            Layer::Turn => "turn",
            Layer::Build => "build",
            Layer::Judge => "judge",
            Layer::Saved => "saved",
            Layer::Sheet => "sheet",
        }
    }
}

impl fmt::Display for Layer {
    ghost output = { λ layer. Some (layer_name layer) };

    fn fmt<W: fmt::Write>(&self, f: &mut fmt::Formatter<W>) -> fmt::Result {
        f.write_str(self.name())
    }
}

// A refusal as a report prints it.
impl fmt::Display for Refusal {
    ghost output = { λ refusal. Some (refusal_text refusal) };

    fn fmt<W: fmt::Write>(&self, f: &mut fmt::Formatter<W>) -> fmt::Result {
        write!(
            f,
            "refused {} {} place {}",
            self.cause.number(),
            self.layer,
            self.place
        )
    }
}
