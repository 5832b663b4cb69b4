// What the fields of a sheet hold, and what may stand next.
ghost use Rattle.std.specs.Prelude.{◌≡◌};
ghost use Rattle.sheet.specs.Kinds.{told_kind};

// What a field holds.
#[derive(Clone, Copy, Debug, PartialEq, Eq)]
pub enum Kind {
    Name,
    Rule,
    LeadIn,
    Cycle,
}

// A tag that no field of a sheet has.
#[derive(Clone, Copy, Debug, PartialEq, Eq)]
pub struct UnknownTag(pub u8);

impl TryFrom<u8> for Kind {
    type Error = UnknownTag;

    ghost try_from_gives = { λ tag kind. kind ≡ told_kind tag };

    fn try_from(tag: u8) -> Result<Kind, UnknownTag> {
        match tag {
            1 => Ok(Kind::Name),
            2 => Ok(Kind::Rule),
            3 => Ok(Kind::LeadIn),
            4 => Ok(Kind::Cycle),
            _ => Err(UnknownTag(tag)),
        }
    }
}

#[derive(Clone, Copy, Debug, PartialEq, Eq)]
pub enum Due {
    NameOrRule,
    // or the end of the sheet
    LeadIn,
    Cycle,
}
