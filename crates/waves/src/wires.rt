// The wires of a waveform: a flag, a word, or a number of some bits.
ghost use Rattle.std.specs.Prelude.{◌≡◌, Some};
ghost use Rattle.std.specs.Int.{from_bool};
ghost use Rattle.waves.specs.declared.wires.Wire.TheVariants.{Flag, Word, Bits};

#[derive(Clone, Copy, PartialEq, Eq)]
pub enum Wire {
    Flag(&'static str),
    Word(&'static str),
    Bits(&'static str, u32),
}

impl Wire {
    pub fn name(self) -> &'static str {
        match self {
            Wire::Flag(name) | Wire::Word(name) | Wire::Bits(name, _) => name,
        }
    }

    pub fn width(self) -> u32 {
        match self {
            Wire::Flag(_) => 1,
            Wire::Word(_) => 32,
            Wire::Bits(_, width) => width,
        }
    }
}

// A wire and what it carries, or none where nothing stands.
#[derive(Clone, Copy, PartialEq, Eq)]
pub struct Signal {
    pub wire: Wire,
    pub value: Option<u32>,
}

impl Signal {
    pub fn flag(name: &'static str, up: bool) -> Signal
        ensures wire { result.wire ≡ Flag name.entry }
        ensures value { result.value ≡ Some (from_bool up) }
    {
        Signal {
            wire: Wire::Flag(name),
            value: Some(u32::from(up)),
        }
    }

    pub fn word(name: &'static str, value: Option<u32>) -> Signal
        ensures wire { result.wire ≡ Word name.entry }
        ensures value { result.value ≡ value }
    {
        Signal {
            wire: Wire::Word(name),
            value,
        }
    }

    pub fn bits(name: &'static str, width: u32, value: Option<u32>) -> Signal
        ensures wire { result.wire ≡ Bits name.entry width }
        ensures value { result.value ≡ value }
    {
        Signal {
            wire: Wire::Bits(name, width),
            value,
        }
    }
}
