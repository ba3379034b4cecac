// Where devices are.

// Devices have the addresses from here on; memory has those below.
pub const DEVICES: u32 = 0x8000_0000;
