// The weight of an arc.
ghost use Rattle.std.specs.Prelude.{◌≡◌, ◌<◌, ◌≤◌, length, nat_abs, ◌+ℤ◌, ◌*ℤ◌};
ghost use Rattle.walks.specs.Walk.{at, atℤ};
ghost use Rattle.walks.specs.Weight.{weight_of};
ghost use Rattle.walks.specs.Form.{CoefficientsInRange};

use crate::Coefficients;
use walks::Arcs;

fn weigh(k: Coefficients, x: i64, y: i64) -> i64
    requires in_range { CoefficientsInRange k.a k.b k.c }
    requires x_small { nat_abs x ≤ 10000 }
    requires y_small { nat_abs y ≤ 10000 }
    ensures { result ≡ k.a *ℤ x +ℤ k.b *ℤ y +ℤ k.c }
{
    k.a * x + k.b * y + k.c
}

pub(crate) fn weight(arcs: Arcs<'_>, k: Coefficients, e: usize) -> i64
    requires in_range { CoefficientsInRange k.a k.b k.c }
    requires cost_room { e < length arcs.cost.now }
    requires reward_room { e < length arcs.reward.now }
    requires cost_small { nat_abs (atℤ arcs.cost.now e) ≤ 10000 }
    requires reward_small { at arcs.reward.now e ≤ 10000 }
    ensures { let g = arcs.entry in result ≡ weight_of k.a k.b k.c g.cost.now g.reward.now e }
{
    weigh(k, i64::from(arcs.cost[e]), i64::from(arcs.reward[e]))
}
