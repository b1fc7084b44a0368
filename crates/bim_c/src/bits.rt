// The lent bit reader for a C host, as the library `bim` has it.
ghost use Rattle.std.specs.Prelude.{◌≡◌, [], length};
ghost use Rattle.bit_reader.specs.Codes.{left_at};
ghost use Rattle.bit_reader.specs.declared.codes.Coding.TheVariants as coding;
ghost use Rattle.call_parts.specs.Calls.{back};
ghost use Rattle.bim.specs.Bits.{bits_call};

// A number in so many bits.
#[unsafe(no_mangle)]
pub extern "C" fn bim_bits_fixed(bytes: &[u8], place: u32, width: u32, area: &mut [u8]) -> u32
    ensures { back result area.new []
        ≡ bits_call bytes.now place (coding.Fixed width) (length area.old) }
{
    bim::bits::bim_bits_fixed(bytes, place, width, area)
}

// A vluimsbf5 in shortest form.
#[unsafe(no_mangle)]
pub extern "C" fn bim_bits_vlu5(bytes: &[u8], place: u32, area: &mut [u8]) -> u32
    ensures { back result area.new []
        ≡ bits_call bytes.now place coding.Five (length area.old) }
{
    bim::bits::bim_bits_vlu5(bytes, place, area)
}

// A vluimsbf8 of at most two bytes in shortest form.
#[unsafe(no_mangle)]
pub extern "C" fn bim_bits_vlu8(bytes: &[u8], place: u32, area: &mut [u8]) -> u32
    ensures { back result area.new []
        ≡ bits_call bytes.now place coding.Eight (length area.old) }
{
    bim::bits::bim_bits_vlu8(bytes, place, area)
}

// How many bits there are from a place on.
#[unsafe(no_mangle)]
pub extern "C" fn bim_bits_left(bytes: &[u8], place: u32) -> u32
    ensures { result ≡ left_at bytes.now place }
{
    bim::bits::bim_bits_left(bytes, place)
}
