// The sheet format: what the bytes of a sheet are and mean, and the decoded sheet. No code.
#![tactic(auto)]

pub mod fields;
pub mod keys;

// What a location record holds; absent prices are 0, and so are the bounds of clocks that the sheet does not have.
#[derive(Clone, Copy, Default)]
pub struct Location {
    pub cost: i16,
    pub reward: u16,
    pub upper: [u8; 4],
}

// What an edge record holds; an absent upper guard is 255, which no byte of a sheet reaches. The guards stand first, so that each of the two lists
// lies within eight bytes, as records are copied.
#[derive(Clone, Copy, Default)]
pub struct Edge {
    pub lower: [u8; 4],
    pub upper: [u8; 4],
    pub cost: i16,
    pub reward: u16,
    pub source: u8,
    pub target: u8,
    pub reset: u8,
}

// A decoded sheet: the number of its refusal, and where that is 0 the edition, the counts and the records, blank ones after them.
#[derive(Clone, Copy)]
pub struct Sheet {
    // Beside the records, and not a Result: `explore` promises what it answers of a refused sheet (`Explorable.not_refused`), whatever its number.
    pub refusal: u8,
    // Its byte and no enum: every byte has an edition (`edition_at`), and whoever is handed one promises an answer for each.
    pub edition: u8,
    pub locations: u8,
    pub clocks: u8,
    pub edges: u8,
    pub location: [Location; 12],
    pub edge: [Edge; 32],
}
