// The place of a number in a rising list, by halving.
#![tactic(auto)]

ghost use Rattle.std.specs.Prelude.{◌≡◌};
ghost use Rattle.rising.specs.Place.{if_below, place_in};

// d where v is below x, else 0, without a branch: half of the time it would be foreseen wrongly.
fn if_below(v: u64, x: u64, d: usize) -> usize
    ensures { result ≡ if_below v x d }
{
    d * usize::from(v < x)
}

// Of a list whose first n numbers rise: the first of their places where the number is at least x, or n. It is one of those from low to low + size.
// Numbers past the list's end are none of the n.
// By hand and not by `partition_point`: the contract has the place that halving comes to in any list, also in one that does not rise.
// With n beside the list, and not a slice of n numbers: the contract has an answer for an n past the list's end.
pub fn place_in(list: &[u64], n: usize, x: u64) -> usize
    ensures { result ≡ place_in list.now n x }
{
    let mut low = 0;
    let mut size = n.min(list.len());
    while 1 < size {
        let half = size / 2;
        let v = list[low + half];
        low += if_below(v, x, half);
        size -= half;
    }
    if size == 0 {
        return low;
    }
    let v = list[low];
    low + if_below(v, x, 1)
}
