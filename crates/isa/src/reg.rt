ghost use Rattle.std.specs.Prelude.{◌<◌};

// A register's number, 0 to 31.
#[derive(Clone, Copy, PartialEq, Eq)]
pub struct Reg {
    pub number: u8,
    ghost low: { number < 32 },
}
