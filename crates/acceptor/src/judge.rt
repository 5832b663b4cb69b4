// The judge: whether an acceptor's run on a round is accepted, for every acceptor.
ghost use Rattle.std.specs.Prelude.{length};
ghost use Rattle.refusal.specs.Answers.{answer};
ghost use Rattle.machine.specs.Judging.{Judged};
ghost use Rattle.acceptor.specs.Said.{told, machine};

use crate::judgement::Judgement;
use crate::steps::after;
use crate::stretch::Stretch;
use crate::trail::{Closed, close};
use crate::traits::Acceptor;
use refusal::{Cause, Layer, Refusal};
use round::Round;

// Judges a round. The trail keeps the states at the ends of the cycles; it is scrap afterwards.
pub fn judge<A: Acceptor>(
    acceptor: &A,
    round: Round<'_>,
    trail: &mut [A::State],
) -> Result<Judgement, Refusal>
    ensures { Judged (machine (A.Course.moves acceptor.now) (A.Acceptor.judges acceptor.now))
        round.entry.lead.now round.entry.cycle.now (length trail.old) (answer told result) }
{
    round.check(acceptor.names())?;
    let first = after(acceptor, acceptor.start(), round.lead);
    let full = Refusal::new(Cause::FullTrail, Layer::Judge, 0);
    let Closed { from, passes } = close(acceptor, first, round.cycle, trail).ok_or(full)?;
    let stretch = Stretch {
        acceptor,
        from: trail[from],
        cycle: round.cycle,
        cycles: passes - from,
    };
    Ok(Judgement {
        accepting: stretch.first_favoured(),
        passes,
    })
}
