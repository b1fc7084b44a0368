// The byte that a payload begins with.
ghost use Rattle.reader.specs.Front.{Makes, Finds};

use model::{Lengths, Mode, offered};
use numbers::refusal::Refusal;
use numbers::{limit, mode};
use table::rows;

// The bytes of the modes in which type codes are sent.
const NEVER_CASTING: u8 = mode::NEVER_BYTE + mode::CASTING_BYTE;

const OPTIONAL_CASTING: u8 = mode::OPTIONAL_BYTE + mode::CASTING_BYTE;

const ALWAYS_CASTING: u8 = mode::ALWAYS_BYTE + mode::CASTING_BYTE;

// A length coding, with or without type codes, by a table, for a party.
fn by_table(table: &[u32], party: u32, lengths: Lengths, derived: bool) -> Mode
    ensures { Makes table.now party lengths derived result }
{
    let swaps = rows::swaps(table);
    let choices = offered(0 < swaps, derived);
    Mode {
        lengths,
        choices,
        party,
    }
}

// The number of bytes is judged before the first of them; type codes are sent only where the table has derivations.
#[tactic(auto, using(crate::proofs::FrontLaws::front_ways))]
pub fn mode_of(table: &[u32], party: u32, payload: &[u8]) -> Result<Mode, Refusal>
    ensures { Finds table.now party payload.now result }
{
    let n = payload.len();
    if n == 0 {
        return Err(Refusal::PayloadSize);
    }
    if limit::MOST_PAYLOAD < n {
        return Err(Refusal::PayloadSize);
    }
    match payload[0] {
        mode::NEVER_BYTE => Ok(by_table(table, party, Lengths::Never, false)),
        mode::OPTIONAL_BYTE => Ok(by_table(table, party, Lengths::Optional, false)),
        mode::ALWAYS_BYTE => Ok(by_table(table, party, Lengths::Always, false)),
        _ if rows::derivations(table) == 0 => Err(Refusal::ModeByte),
        NEVER_CASTING => Ok(by_table(table, party, Lengths::Never, true)),
        OPTIONAL_CASTING => Ok(by_table(table, party, Lengths::Optional, true)),
        ALWAYS_CASTING => Ok(by_table(table, party, Lengths::Always, true)),
        _ => Err(Refusal::ModeByte),
    }
}
