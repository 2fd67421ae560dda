//! The memory map: where RAM, the stack and the devices' registers stand.
#![tactic(auto)]

ghost use Rattle.std.specs.Prelude.{◌≡◌};
ghost use Rattle.lb_memory.specs.Map.{MemoryMap, is_device};

/// Bytes of RAM, which stands from address 0 on.
pub const RAM_SIZE: u32 = 0x40000;

/// The address at which the stack begins: RAM's end. It grows downwards.
pub const STACK_TOP: u32 = RAM_SIZE;

/// The most bytes of stack that a program may ask for.
pub const MOST_STACK: u64 = 65_536;

/// The first byte of the registers of the general-purpose pins, as in the FE310's memory map.
pub const PINS_FIRST: u32 = 0x10012000;

/// Their last byte.
pub const PINS_LAST: u32 = 0x10012FFF;

/// The first byte of the registers of the serial bus, as in the FE310's memory map.
pub const BUS_FIRST: u32 = 0x10024000;

/// Their last byte.
pub const BUS_LAST: u32 = 0x10024FFF;

/// The numbers of the memory map are these.
pub fn memory_map()
    ensures { MemoryMap }
{}

/// Whether the byte address is one of the devices' registers.
pub fn is_device_address(addr: u32) -> bool
    ensures { result ≡ is_device addr }
{
    matches!(addr, PINS_FIRST..=PINS_LAST | BUS_FIRST..=BUS_LAST)
}
