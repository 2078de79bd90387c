// The counts of a header.
ghost use Rattle.std.specs.Prelude.{◌≤◌};

// As question 4 lets them pass.
#[derive(Clone, Copy)]
pub(crate) struct Counts {
    pub locations: usize,
    pub clocks: u32,
    pub edges: usize,
    ghost few_locations: { locations ≤ 12 },
    ghost few_clocks: { clocks ≤ 4 },
    ghost few_edges: { edges ≤ 32 },
}
