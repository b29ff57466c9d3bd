// The sum and the join by themselves, for C and Rust to measure: each of the loader's own calls does more.
#![tactic(auto)]

ghost use Rattle.std.specs.Prelude.{◌≡◌};
ghost use Rattle.crc.specs.Crc.{crc_of};
ghost use Rattle.crc.specs.Join.{joined};

#[unsafe(no_mangle)]
pub extern "C" fn mullirim_sum(bytes: &[u8]) -> u32
    ensures { result ≡ crc_of bytes.now }
{
    crc::sum(bytes)
}

#[unsafe(no_mangle)]
pub extern "C" fn mullirim_join(before: u32, block: u32) -> u32
    ensures { result ≡ joined before block }
{
    crc::join(before, block)
}
