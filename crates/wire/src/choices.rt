// How many bits tell n choices apart.
ghost use Rattle.std.specs.Prelude.{◌≡◌};
ghost use Rattle.wire.specs.Width as meaning;

// The least w with 2^w at least n: the bits of the last of them, counted from 0. One choice takes none, nor does none, of which there is no last.
pub fn width(n: u32) -> u32
    ensures { result ≡ meaning.width n }
{
    32 - u32::leading_zeros(n.saturating_sub(1))
}
