// Both lent buffers made all zero.
ghost use Rattle.std.specs.Prelude.{◌≡◌, length, replicate};

pub fn both(events: &mut [u32], texts: &mut [u8])
    ensures { (events.new ≡ replicate (length events.old) 0)
        × (texts.new ≡ replicate (length texts.old) 0) }
{
    events.fill(0);
    texts.fill(0);
}
