// Editions of sheets, as the code needs them.
#![tactic(auto)]

ghost use Rattle.std.specs.Prelude.{◌≡◌};
ghost use Rattle.sheet.specs.Fields.{edition_at};

// How many clocks a sheet of an edition has at most.
pub fn most_clocks(edition: u8) -> u8
    ensures { result ≡ (edition_at edition).clocks }
{
    if edition == 1 { 3 } else { 4 }
}
