// What is left of a payload after its root.
ghost use Rattle.std.specs.Prelude.{◌≡◌, ◌*◌, ◌≤◌, length};
ghost use Rattle.numbers.specs.Limit.{most_payload};
ghost use Rattle.model.specs.Whole as meaning;

use wire::Bits;
use wire::reading::bit;

// Fewer than 8 bits, all of them 0.
#[tactic(auto, using(crate::proofs::RestLaws::rest_ways))]
pub fn padding(payload: &[u8], at: Bits) -> bool
    requires { length payload.now ≤ most_payload }
    ensures { result ≡ meaning.padding payload.now at.0 }
{
    let wall = (8 * payload.len()) as u32;
    let from = at.0;
    if wall <= from {
        return true;
    }
    if 8 <= wall - from {
        return false;
    }
    for p in from..wall {
        if 0 < bit(payload, p) {
            return false;
        }
    }
    true
}
