// Which accesses are RAM's, and which a device's.
ghost use Rattle.std.specs.Prelude.{◌≡◌, ◌≤◌};
ghost use Rattle.lb_outcome.specs.MemoryMap.{is_device_word, is_in_ram};

use lb_memory::{RAM_SIZE, is_device_address};

/// Whether an access of `bytes` bytes, at most 4, at a byte address lies wholly in RAM.
pub fn in_ram(bytes: u32, address: u32) -> bool
    requires { bytes ≤ 4 }
    ensures { result ≡ is_in_ram bytes address }
{
    address <= RAM_SIZE - bytes
}

// Whether it is one of an aligned word of a device.
pub(crate) fn device_word(bytes: u32, address: u32) -> bool
    ensures { result ≡ is_device_word bytes address }
{
    bytes == 4 && address % 4 == 0 && is_device_address(address)
}
