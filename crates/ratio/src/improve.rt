// From a cycle that earns to one of the least ratio, or to one without reward that makes money.
// The cycle in hand is the first k entries of hand. Where only it is read, it is passed as &hand[..k]; these functions search on in all of hand.
// hand and k are no struct with an invariant: `negative_cycle` writes hand and then gives k, so in between no invariant holds.
ghost use Rattle.std.specs.Prelude.{length};
ghost use Rattle.ratio.specs.Answer.{RatioArguments, RatioAnswered};
ghost use Rattle.ratio.specs.Turns.{InHand, Earns, Turned, SettledBy};

use crate::fraction::{Fraction, fraction_of, reward_sum};
use crate::{NoRatio, Ratio};
use graph::Coefficients;
use walks::{Arcs, Malformed};

// A cycle of a smaller ratio is in hand now, by the number of its arcs; or a cycle without reward makes money; or there is neither, and the
// ratio is the least. Three cases, so neither an Option nor a Result.
#[derive(Clone, Copy)]
enum Turn {
    Better(usize),
    Gains,
    Done(Fraction),
}

// One search for a cycle below the ratio of the one in hand. Where there is none, the potentials are written.
fn search_below(
    arcs: Arcs<'_>,
    nodes: usize,
    potential: &mut [i64],
    hand: &mut [usize],
    k: usize,
) -> Turn
    requires ratio_arguments { RatioArguments arcs.from.now arcs.to.now arcs.cost.now arcs.reward.now nodes (length potential.old) (length hand.old) }
    requires in_hand { InHand arcs.from.now arcs.to.now nodes hand.old k }
    requires earns { Earns arcs.reward.now hand.old k }
    ensures { let g = arcs.entry in Turned g.from.now g.to.now g.cost.now g.reward.now nodes k
        potential.old potential.new hand.old hand.new result }
{
    let ratio = fraction_of(arcs, &hand[..k]);
    // q is too small to lose anything.
    let below = Coefficients {
        a: ratio.q as i64,
        b: -ratio.p,
        c: 0,
    };
    match graph::negative_cycle(arcs, below, nodes, potential, hand) {
        // Never: the arguments are well formed.
        Err(Malformed) => Turn::Done(ratio),
        Ok(None) => Turn::Done(ratio),
        Ok(Some(j)) => {
            let earned = reward_sum(arcs.reward, &hand[..j]);
            if earned == 0 {
                return Turn::Gains;
            }
            Turn::Better(j)
        }
    }
}

// Turn by turn: the ratio falls, and fractions with bounded denominators cannot fall for ever. None: a cycle without reward makes money.
fn settle(
    arcs: Arcs<'_>,
    nodes: usize,
    potential: &mut [i64],
    hand: &mut [usize],
    k: usize,
) -> Option<Ratio>
    requires ratio_arguments { RatioArguments arcs.from.now arcs.to.now arcs.cost.now arcs.reward.now nodes (length potential.old) (length hand.old) }
    requires in_hand { InHand arcs.from.now arcs.to.now nodes hand.old k }
    requires earns { Earns arcs.reward.now hand.old k }
    ensures { let g = arcs.entry in SettledBy g.from.now g.to.now g.cost.now g.reward.now nodes
        potential.old potential.new hand.new result }
{
    let mut k = k;
    loop {
        match search_below(arcs, nodes, potential, hand, k) {
            Turn::Better(j) => k = j,
            Turn::Gains => return None,
            Turn::Done(Fraction { p, q }) => return Some(Ratio { p, q, arcs: k }),
        }
    }
}

// Question 14, and where it is answered yes the least ratio: the first k arcs in hand are a cycle that earns.
pub(crate) fn least_from(
    arcs: Arcs<'_>,
    nodes: usize,
    potential: &mut [i64],
    cycle: &mut [usize],
    hand: &mut [usize],
    k: usize,
) -> Result<Ratio, NoRatio>
    requires ratio_arguments { RatioArguments arcs.from.now arcs.to.now arcs.cost.now arcs.reward.now nodes (length potential.old) (length cycle.old) }
    requires in_hand { InHand arcs.from.now arcs.to.now nodes hand.old k }
    requires earns { Earns arcs.reward.now hand.old k }
    ensures { let g = arcs.entry in RatioAnswered g.from.now g.to.now g.cost.now g.reward.now nodes
        potential.old potential.new cycle.old cycle.new result }
{
    let Some(ratio) = settle(arcs, nodes, potential, hand, k) else {
        return Err(NoRatio::IdleGain);
    };
    cycle[..ratio.arcs].copy_from_slice(&hand[..ratio.arcs]);
    Ok(ratio)
}
