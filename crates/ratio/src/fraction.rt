// The ratio of a cycle, in lowest terms.
ghost use Rattle.std.specs.Prelude.{◌≡◌, ℕ, ◌≤◌, ◌<◌, nat_abs, length};
ghost use Rattle.integers.specs.Lowest.{Gcd, signed_as};
ghost use Rattle.walks.specs.Walk.{at, atℤ};
ghost use Rattle.walks.specs.Weight.{sum, total};
ghost use Rattle.ratio.specs.Turns.{Reduced, Summed};

use walks::Arcs;

#[derive(Clone, Copy)]
pub(crate) struct Fraction {
    pub(crate) p: i64,
    pub(crate) q: u64,
}

// The sums of costs and of rewards differ in sign and type: a trait over both would have two uses and be no plainer.
fn cost_sum(cost: &[i16], cycle: &[usize]) -> i64
    requires few { length cycle.now ≤ 2048 }
    requires arcs_in { (i : ℕ) → i < length cycle.now → at cycle.now i < length cost.now }
    ensures { result ≡ sum (atℤ cost.now) cycle.now }
{
    let mut z = 0;
    for e in cycle {
        z += i64::from(cost[*e]);
    }
    z
}

pub(crate) fn reward_sum(reward: &[u16], cycle: &[usize]) -> u64
    requires few { length cycle.now ≤ 2048 }
    requires arcs_in { (i : ℕ) → i < length cycle.now → at cycle.now i < length reward.now }
    ensures { result ≡ total (at reward.now) cycle.now }
{
    let mut x = 0;
    for e in cycle {
        x += u64::from(reward[*e]);
    }
    x
}

// The greatest common divisor, by Euclid's steps.
fn gcd(a: u64, b: u64) -> u64
    ensures { Gcd a b result }
{
    let mut x = a;
    let mut y = b;
    while y != 0 {
        let t = x % y;
        x = y;
        y = t;
    }
    x
}

// n, with the sign of z; n is too small to lose anything.
fn with_sign(n: u64, z: i64) -> i64
    requires { n ≤ 20480000 }
    ensures { result ≡ signed_as n z }
{
    if z < 0 { 0 - (n as i64) } else { n as i64 }
}

// cost / reward in lowest terms.
fn reduce(cost: i64, reward: u64) -> Fraction
    requires cost_small { nat_abs cost ≤ 20480000 }
    requires earns { 0 < reward }
    ensures { Reduced cost reward result.p result.q }
{
    let n = signs::magnitude(cost);
    let g = gcd(n, reward);
    let p = with_sign(n / g, cost);
    Fraction { p, q: reward / g }
}

pub(crate) fn fraction_of(arcs: Arcs<'_>, cycle: &[usize]) -> Fraction
    requires { Summed arcs.cost.now arcs.reward.now cycle.now }
    ensures { let g = arcs.entry in Reduced (sum (atℤ g.cost.now) cycle.now) (total (at g.reward.now) cycle.now) result.p result.q }
{
    reduce(cost_sum(arcs.cost, cycle), reward_sum(arcs.reward, cycle))
}
