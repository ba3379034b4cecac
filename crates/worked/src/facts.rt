// What is known of the worked programs.
use crate::case::Case;
use crate::record::Record;
use asm::program::Program;
use isa::execute::Stop;
use pins::ports::Retired;
use reference::trace::Effect;

const LOOP_WORDS: [u32; 10] = [
    4194963, 5571891, 4294083219, 4261584099, 2147484599, 10723363, 4432643, 6300707, 8398211, 115,
];

const LOOP_EFFECTS: [Effect; 3] = [
    Effect::Write {
        address: 2147483648,
        value: 10,
    },
    Effect::Ask {
        address: 2147483652,
    },
    Effect::Write {
        address: 8,
        value: 99,
    },
];

const LOOP_LAST: Retired = Retired {
    pc: 32,
    reg: 11,
    value: 99,
};

const QUOTIENT: Retired = Retired {
    pc: 4,
    reg: 11,
    value: 4294967295,
};

const REMAINDER: Retired = Retired {
    pc: 8,
    reg: 12,
    value: 7,
};

const FLAG: Effect = Effect::Ask {
    address: 2147483648,
};

const OTHER: Effect = Effect::Ask {
    address: 2147483652,
};

const EITHER_WAY_EFFECTS: [Effect; 10] = [
    FLAG,
    OTHER,
    FLAG,
    FLAG,
    OTHER,
    FLAG,
    FLAG,
    FLAG,
    OTHER,
    Effect::Write {
        address: 2147483656,
        value: 60,
    },
];

const TOTAL: Effect = Effect::Write {
    address: 2147483648,
    value: 5050,
};

impl Case {
    // Whether the fact holds of a run with answers within `most` clocks: a match, as each is about a program of its own.
    pub fn holds(self, program: &Program, record: &Record, most: u32) -> bool {
        match self {
            Case::Loop => loop_holds(program, record),
            Case::Forever => {
                record.summary.stopped.is_none() && record.gap < 64 + 16 * u64::from(most)
            }
            Case::Nought => stops_at_once(record, Stop::Illegal),
            Case::Misaligned | Case::OddStart => stops_at_once(record, Stop::Misaligned),
            Case::Divide => {
                record.done.get(1) == Some(&QUOTIENT) && record.done.get(2) == Some(&REMAINDER)
            }
            Case::EitherWay => record.effects.as_slice() == EITHER_WAY_EFFECTS.as_slice(),
            Case::StoreLoad => {
                record.effects.len() == 101 && record.effects.last() == Some(&TOTAL)
            }
            Case::Sums => stops(record, Stop::EnvCall) && record.done.len() == 200,
        }
    }
}

fn loop_holds(program: &Program, record: &Record) -> bool {
    let words = program.code.iter().map(|placed| placed.word);
    words.eq(LOOP_WORDS)
        && record.effects.as_slice() == LOOP_EFFECTS.as_slice()
        && stops(record, Stop::EnvCall)
        && record.done.last() == Some(&LOOP_LAST)
}

fn stops(record: &Record, how: Stop) -> bool {
    record.summary.stopped == Some(how)
}

fn stops_at_once(record: &Record, how: Stop) -> bool {
    stops(record, how) && record.done.is_empty() && record.effects.is_empty()
}
