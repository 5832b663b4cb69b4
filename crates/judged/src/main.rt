// Rounds judged by hand: each line says what the judge makes of one, and the stored output says what must come.
#![tactic(auto)]

mod counter;

ghost use Rattle.std.specs.Prelude.{◌≤◌, length};

use acceptor::judge::judge;
use counter::{Counter, Pair};
use round::Round;
use support::Answer;

// Lead-in and cycle come apart, so that each case below is one line.
fn show(
    rt: &HostRuntime,
    counter: &Counter<'_>,
    lead: &[u8],
    cycle: &[u8],
    places: usize,
) -> anyhow::Result<()> {
    let mut trail = vec![in rt.alloc(); 0u8; places]?;
    let answer = Answer(judge(counter, Round { lead, cycle }, trail.as_mut_slice()));
    Ok(println!(rt; "{answer}")?)
}

// Three states in a ring: a cycle of one step comes again after three passes.
fn show_ring(rt: &HostRuntime) -> anyhow::Result<()> {
    let ring = Counter {
        last: 2,
        back: 0,
        pairs: &[Pair {
            avoid: None,
            visits: &[0],
        }],
    };
    show(rt, &ring, &[], &[1], 3)?;
    show(rt, &ring, &[], &[1], 2)?;
    show(rt, &ring, &[], &[1], 0)?;
    show(rt, &ring, &[], &[1, 1, 1], 1)?;
    show(rt, &ring, &[], &[1, 0, 1], 9)?;
    show(rt, &ring, &[1], &[0], 1)?;
    show(rt, &ring, &[1, 1, 1], &[0], 1)
}

// A tail of two states before a ring of two: only the ring is judged.
fn show_tail(rt: &HostRuntime) -> anyhow::Result<()> {
    let tail = Counter {
        last: 3,
        back: 2,
        pairs: &[Pair {
            avoid: Some(1),
            visits: &[3, 2],
        }],
    };
    show(rt, &tail, &[], &[1], 4)?;
    show(rt, &tail, &[], &[1], 3)?;
    show(rt, &tail, &[1, 1], &[0, 1], 2)?;
    show(rt, &tail, &[1], &[0], 2)?;
    show(rt, &tail, &[1, 1], &[0], 2)?;
    let early = Counter {
        last: 3,
        back: 2,
        pairs: &[Pair {
            avoid: None,
            visits: &[1],
        }],
    };
    show(rt, &early, &[], &[1], 4)
}

// One round for several choices of pairs.
fn show_pairs(rt: &HostRuntime, pairs: &[Pair<'_>]) -> anyhow::Result<()>
    requires { length pairs.now ≤ 256 }
{
    let ring = Counter {
        last: 2,
        back: 0,
        pairs,
    };
    show(rt, &ring, &[0], &[1], 3)
}

fn show_choices(rt: &HostRuntime) -> anyhow::Result<()> {
    let any = Pair {
        avoid: None,
        visits: &[],
    };
    let barred = Pair {
        avoid: Some(1),
        visits: &[],
    };
    let both = Pair {
        avoid: None,
        visits: &[0, 2],
    };
    let beyond = Pair {
        avoid: Some(7),
        visits: &[0, 7],
    };
    show_pairs(rt, &[])?;
    show_pairs(rt, &[any])?;
    show_pairs(rt, &[barred])?;
    show_pairs(rt, &[beyond])?;
    show_pairs(rt, &[barred, both])?;
    show_pairs(rt, &[both, any])?;
    show_pairs(rt, &[barred, beyond])
}

// What is no round is refused before the trail is looked at.
fn show_refusals(rt: &HostRuntime) -> anyhow::Result<()> {
    let ring = Counter {
        last: 2,
        back: 0,
        pairs: &[],
    };
    let most = vec![in rt.alloc(); 0u8; 1023]?;
    let more = vec![in rt.alloc(); 0u8; 1024]?;
    show(rt, &ring, &[1], &[], 0)?;
    show(rt, &ring, &[0, 2], &[1], 0)?;
    show(rt, &ring, &[0], &[1, 3], 0)?;
    show(rt, &ring, more.as_slice(), &[1], 0)?;
    show(rt, &ring, most.as_slice(), &[1], 3)
}

fn main(rt: HostRuntime) -> anyhow::Result<()> {
    show_ring(&rt)?;
    show_tail(&rt)?;
    show_choices(&rt)?;
    show_refusals(&rt)
}
