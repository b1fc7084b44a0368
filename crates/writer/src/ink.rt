// The mode byte and the notes of n events, into a payload that is zero.
ghost use Rattle.std.specs.Prelude.{◌≡◌, false, ◌∷◌, ◌+◌, ◌*◌, ◌/◌, ◌≤◌, length};
ghost use Rattle.model.specs.Pack.{pack};
ghost use Rattle.model.specs.Modes.{lengths_is, mode_is};
ghost use Rattle.model.specs.Whole.{mode, mode_byte, filled};
ghost use Rattle.writer_parts.specs.Notes.{spells};
ghost use Rattle.writer.specs.Cleared.{Zeros};

use model::{Lengths, Mode};
use wire::Bits;
use writer_parts::pen::put_notes;

// The byte of length coding.
fn lengths_byte(lengths: Lengths) -> u8
    ensures { result ≡ mode_byte (mode (lengths_is lengths) false) }
{
    match lengths {
        Lengths::Never => numbers::mode::NEVER_BYTE,
        Lengths::Optional => numbers::mode::OPTIONAL_BYTE,
        Lengths::Always => numbers::mode::ALWAYS_BYTE,
    }
}

// The mode byte.
fn first(mode: Mode) -> u8
    ensures { result ≡ mode_byte (mode_is mode) }
{
    let lengths = mode.lengths;
    let byte = lengths_byte(lengths);
    if mode.choices.derived {
        return byte + numbers::mode::CASTING_BYTE;
    }
    byte
}

pub fn draw(payload: &mut [u8], mode: Mode, texts: &[u8], notes: &[u64], n: usize)
    requires { (Zeros payload.old)
        × (1 + (length (spells texts.now notes.now 0 n) + 7) / 8 ≤ length payload.old)
        × (length (spells texts.now notes.now 0 n) ≤ 100000000)
        × (n ≤ length notes.now) }
    ensures { payload.new
        ≡ filled (length payload.old)
        (mode_byte (mode_is mode) ∷ pack (spells texts.now notes.now 0 n)) }
{
    let x = first(mode);
    payload[0] = x;
    let at = Bits(8);
    put_notes(payload, at, texts, notes, n);
}
