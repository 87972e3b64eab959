//! The number of the library's interface.

ghost use Rattle.std.specs.Prelude.{◌≡◌};

/// The number of the interface that `pcc.h` declares. A change that breaks callers raises it.
pub const ABI: u32 = 1;

/// Returns the number of the interface.
#[unsafe(no_mangle)]
pub extern "C" fn pcc_abi() -> u32
    ensures exact { result ≡ ABI }
{
    ABI
}
