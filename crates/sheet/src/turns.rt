// Taking the rounds of a sheet one after the other.
ghost use Rattle.std.specs.Prelude.{◌≡◌, ◌≤◌, length, drop};
ghost use Rattle.std.specs.Iterator.{YieldsFirstBy, item_count};
ghost use Rattle.fields.specs.Pieces.{parts_from};
ghost use Rattle.sheet.specs.Contents.{rounds_in};
ghost use Rattle.sheet.specs.Turns.{rounds_left, letters};

use crate::view::{Rounds, Sheet};
use fields::Fields;
use round::Round;

impl Sheet {
    // The rounds of the sheet that was read from these bytes, no more than there are bytes.
    #[tactic(auto, using(crate::proofs::Few::few))]
    pub fn rounds<'a>(&self, bytes: &'a [u8]) -> Rounds<'a>
        ensures rounds { rounds_left result ≡ rounds_in (parts_from self.now.rounds 0 (drop self.now.rounds bytes.now)) }
        ensures few { length (rounds_left result) ≤ length bytes.now }
    {
        Rounds {
            fields: Fields {
                bytes,
                at: self.rounds,
            },
        }
    }
}

impl<'a> Iterator for Rounds<'a> {
    type Item = Round<'a>;

    ghost next_gives = { YieldsFirstBy letters rounds_left };

    ghost remaining = { item_count rounds_left };

    fn next(&mut self) -> Option<Round<'a>> {
        let lead = self.fields.next().ok()??;
        let cycle = self.fields.next().ok()??;
        Some(Round {
            lead: lead.body,
            cycle: cycle.body,
        })
    }
}
