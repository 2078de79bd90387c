// Lent buffers: zeros from a place on.
#![tactic(auto)]

ghost use Rattle.std.specs.Prelude.{◌≡◌};
ghost use Rattle.buffers.specs.Cleared.{cleared};

// `for` and not `fill`: of any T: Copy nothing says that a clone is the value, which `fill` goes by, so that callers would be asked for more.
pub fn clear<T: Copy>(list: &mut [T], zero: T, from: usize)
    ensures { list.new ≡ cleared zero list.old from }
{
    if from < list.len() {
        for entry in &mut list[from..] {
            *entry = zero;
        }
    }
}
