// Sums and comparisons of potentials, signed numbers of 64 bits. Each is a function, since their contracts speak of these raised to natural numbers.
ghost use Rattle.std.specs.Prelude.{◌≡◌, ◌+◌, ◌<◌, ◌≤◌, length, set, nat_abs};
ghost use Rattle.walks.specs.Walk.{at};
ghost use Rattle.walks.specs.SearchNumbers.{raised, raised_all, Sum, Less, TooLow, bias, start, most, deep};

fn add(x: i64, y: i64) -> i64
    requires low { start < raised start x + deep }
    requires high { raised start x ≤ start + deep }
    requires small { nat_abs y ≤ most }
    ensures { Sum (raised start x) (raised bias y) result }
{
    x + y
}

// The sum of the potential of u and a weight.
pub(crate) fn sum_at(potential: &[i64], u: usize, w: i64) -> i64
    requires in_list { u < length potential.now }
    requires small { nat_abs w ≤ most }
    requires low { start < at (raised_all start potential.now) u + deep }
    requires high { at (raised_all start potential.now) u ≤ start + deep }
    ensures { Sum (at (raised_all start potential.now) u) (raised bias w) result }
{
    let x = potential[u];
    add(x, w)
}

fn less(x: i64, y: i64) -> bool
    requires { 0 < raised start y }
    ensures { Less (raised start x) (raised start y) result }
{
    x < y
}

// Whether x is below the potential of v.
pub(crate) fn improves(potential: &[i64], v: usize, x: i64) -> bool
    requires in_list { v < length potential.now }
    requires found { 0 < at (raised_all start potential.now) v }
    ensures { Less (raised start x) (at (raised_all start potential.now) v) result }
{
    let y = potential[v];
    less(x, y)
}

// Whether the potential of v is −10^15 or less: then the climb from v finds a cycle.
pub(crate) fn too_low(potential: &[i64], v: usize) -> bool
    requires { v < length potential.now }
    ensures { TooLow (at (raised_all start potential.now) v) result }
{
    let y = potential[v];
    less(y, -999999999999999)
}

pub(crate) fn put(potential: &mut [i64], v: usize, x: i64)
    requires { v < length potential.old }
    ensures { raised_all start potential.new ≡ set (raised_all start potential.old) v (raised start x) }
{
    potential[v] = x;
}
