// The reader of sheets: whether a byte string is a sheet, and what it holds.
#![tactic(auto)]

ghost use Rattle.std.specs.Prelude.{◌≡◌};
ghost use Rattle.refusals.specs.Numbers.{refusal_of};
ghost use Rattle.sheet.specs.Questions.{check_of};
ghost use Rattle.sheet.specs.Decoded.{read_of};

use refusals::Refusal;
use sheet::Sheet;

mod bytes;
mod counts;
mod decode;
mod distinct;
mod fields;
mod keys;
mod questions;
mod record;

// The first of questions 2 to 10, 17 and 11 that is answered no.
pub fn check(sheet: &[u8]) -> Result<(), Refusal>
    ensures { refusal_of result ≡ check_of sheet.now }
{
    questions::check(sheet)
}

// The decoded sheet, all of it 0 but the refusal where the check refuses it.
pub fn read(sheet: &[u8]) -> Sheet
    ensures { result ≡ read_of sheet.now }
{
    match questions::check(sheet) {
        Ok(()) => decode::decoded(sheet),
        Err(refusal) => decode::refused(refusal),
    }
}
