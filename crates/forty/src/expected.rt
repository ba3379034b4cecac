// What the text of a program states of its run, in lines such as `# expect: reg a0 55`.
use asm::names::register;
use asm::text::number;
use isa::execute::Stop;
use isa::reg::Reg;
use reference::trace::Effect;
use std::alloc::Global;
use testbench::failure::Failure;

#[derive(Clone, Copy)]
pub enum Expected {
    // `reg REGISTER VALUE`: what a register holds at the end.
    Register { reg: Reg, value: u32 },
    // `word ADDRESS VALUE`: what data memory holds at the end.
    Word { address: u32, value: u32 },
    // `write ADDRESS VALUE` and `ask ADDRESS`: what devices are asked, all of it in order.
    Device(Effect),
    // `stop illegal` and `stop misaligned`: how it stops, if not by ecall.
    Stop(Stop),
}

impl Expected {
    // What is expected of devices, and below how it stops: one arm each, of another variant.
    pub(crate) fn device(self) -> Option<Effect> {
        match self {
            Expected::Device(effect) => Some(effect),
            _ => None,
        }
    }

    pub(crate) fn stop(self) -> Option<Stop> {
        match self {
            Expected::Stop(how) => Some(how),
            _ => None,
        }
    }
}

// All that a text states.
pub fn read_expected(heap: Global, text: &str) -> Result<Vec<Expected>, Failure> {
    let mut list = Vec::new(heap);
    for line in text.lines() {
        if let Some(rest) = line.strip_prefix("# expect: ") {
            let Some(expected) = one_expected(rest) else {
                return Err(Failure::Input(format!(in heap; "cannot expect '{rest}'")?));
            };
            list.push(expected)?;
        }
    }
    Ok(list)
}

fn one_expected(text: &str) -> Option<Expected> {
    let mut words = text.split_whitespace();
    let kind = words.next()?;
    let what = words.next()?;
    let value = words.next().and_then(|word| number(word).ok());
    match kind {
        "reg" => Some(Expected::Register {
            reg: register(what)?,
            value: value?,
        }),
        "word" => Some(Expected::Word {
            address: number(what).ok()?,
            value: value?,
        }),
        "write" => Some(Expected::Device(Effect::Write {
            address: number(what).ok()?,
            value: value?,
        })),
        "ask" => Some(Expected::Device(Effect::Ask {
            address: number(what).ok()?,
        })),
        "stop" => stop_named(what).map(Expected::Stop),
        _ => None,
    }
}

fn stop_named(name: &str) -> Option<Stop> {
    match name {
        "illegal" => Some(Stop::Illegal),
        "misaligned" => Some(Stop::Misaligned),
        _ => None,
    }
}
