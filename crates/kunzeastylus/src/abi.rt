// The number of the exported calls' shape. A caller that was built for another one would link, and write where it must not: so it asks first.
ghost use Rattle.std.specs.Prelude.{◌≡◌};
ghost use Rattle.kunzeastylus.specs.Abi.{abi};

// include/kunzeastylus.h has it as KS_ABI.
pub const ABI: u32 = 3;

pub fn ks_abi() -> u32
    ensures { result ≡ abi }
{
    ABI
}
