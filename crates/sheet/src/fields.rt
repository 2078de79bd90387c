// What the bits of a record's map stand for.

// The two kinds of record.
#[derive(Clone, Copy)]
pub enum Kind {
    LocationRecord,
    EdgeRecord,
}

// A field; a bound or a guard is of the clock it names.
#[derive(Clone, Copy)]
pub enum Field {
    Cost,
    Reward,
    Reset,
    Lower(u32),
    Upper(u32),
    Unused,
}
