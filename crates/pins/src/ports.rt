// The words of one clock: four in, twenty out.
ghost use Rattle.std.specs.Prelude.{◌≡◌, ℕ, ◌+◌, ◌<◌, ◌≤◌, true, length, take, min, drop, slice_index};
ghost use Rattle.pins.specs.Ports.{In, in_of, out_of, req_of, rets_of, flagged, sound_out};
ghost use Rattle.pins.specs.PortWords.{optional, plain, legal_out, ReadsOutputs, done_list, inputs_of, ReadsInputs, flag_of, word_of, request_of, kind_of, address_of, value_of, stop_word, done_none, done_one, shown, port_words};

use isa::execute::Stop;

// What is given in a clock: a word of code, an answer to a request.
#[derive(Clone, Copy, PartialEq, Eq)]
pub struct Inputs {
    pub code: Option<u32>,
    pub answer: Option<u32>,
}

// A request to data memory or a device.
#[derive(Clone, Copy, PartialEq, Eq)]
pub enum Request {
    Read { address: u32 },
    Write { address: u32, value: u32 },
}

// An instruction that is done: its address, the register that it writes and what, or 0 and 0.
#[derive(Clone, Copy, Debug, PartialEq, Eq)]
pub struct Retired {
    pub pc: u32,
    pub reg: u32,
    pub value: u32,
}

// The instructions done in a clock, up to four, oldest first. An array and a count, since there is no heap at the ports.
#[derive(Clone, Copy, PartialEq, Eq)]
pub struct Done {
    pub count: u32,
    pub at: [Retired; 4],
}

// What is shown in a clock: code wanted, a request, whether and how it has stopped, what is done.
#[derive(Clone, Copy, PartialEq, Eq)]
pub struct Outputs {
    pub want: Option<u32>,
    pub request: Option<Request>,
    pub stopped: Option<Stop>,
    pub done: Done,
}

// The ports' words are flags, kinds and codes, as C and the drawing have them: here and below they are taken for what they
// mean, and back.
fn given(flag: u32, word: u32) -> Option<u32>
    ensures { result ≡ optional (flagged flag word) }
{
    (flag == 1).then_some(word)
}

impl Inputs {
    // From four words; none where there are not four.
    pub fn read(ins: &[u32]) -> Option<Inputs>
        ensures { ReadsInputs ins.now result }
    {
        let [code_flag, code_word, answer_flag, answer_word] = *ins else {
            return None;
        };
        let code = given(code_flag, code_word);
        let answer = given(answer_flag, answer_word);
        Some(Inputs { code, answer })
    }

    // As four words.
    pub fn words(&self) -> [u32; 4]
        ensures { inputs_of (in_of result) ≡ self.now }
    {
        let (has_code, code) = flag_words(self.code);
        let (has_answer, answer) = flag_words(self.answer);
        [has_code, code, has_answer, answer]
    }
}

// What stands where no instruction is.
const NOTHING: Retired = Retired {
    pc: 0,
    reg: 0,
    value: 0,
};

impl Done {
    pub fn none() -> Done
        ensures { result ≡ done_none }
    {
        Done {
            count: 0,
            at: [NOTHING; 4],
        }
    }

    pub fn one(first: Retired) -> Done
        ensures { result ≡ done_one first }
    {
        Done {
            count: 1,
            at: [first, NOTHING, NOTHING, NOTHING],
        }
    }

    // The instructions alone.
    pub fn retired(&self) -> &[Retired]
        ensures { result.now ≡ take (min self.now.count 4) self.now.at }
    {
        &self.at[..self.count.min(4) as usize]
    }
}

// A flag and a word, as C reads them at the ports.
fn flag_words(word: Option<u32>) -> (u32, u32)
    ensures { (result.0 ≡ flag_of word) × (result.1 ≡ word_of word) }
{
    match word {
        None => (0, 0),
        Some(x) => (1, x),
    }
}

fn request_words(request: Option<Request>) -> (u32, u32, u32)
    ensures { (result.0 ≡ kind_of request) × (result.1 ≡ address_of request) × (result.2 ≡ value_of request) }
{
    match request {
        None => (0, 0, 0),
        Some(Request::Read { address }) => (1, address, 0),
        Some(Request::Write { address, value }) => (2, address, value),
    }
}

fn request_of(kind: u32, address: u32, value: u32) -> Option<Request>
    ensures { request_of result ≡ req_of kind address value }
{
    match kind {
        1 => Some(Request::Read { address }),
        2 => Some(Request::Write { address, value }),
        _ => None,
    }
}

// The instruction whose three words begin at a place.
fn retired_at(outs: &[u32], place: usize) -> Retired
    requires { place + 3 ≤ length outs.now }
    ensures { (result.pc ≡ slice_index outs.now place) × (result.reg ≡ slice_index outs.now (place + 1)) × (result.value ≡ slice_index outs.now (place + 2)) }
{
    Retired {
        pc: outs[place],
        reg: outs[place + 1],
        value: outs[place + 2],
    }
}

fn stop_of(flag: u32, code: u32) -> Option<Stop>
    ensures { (flag ≡ 1 → code ≤ 2) → plain (stop_word result) ≡ flagged flag code }
{
    if flag != 1 {
        return None;
    }
    Stop::try_from(code).ok()
}

fn done_of(outs: &[u32]) -> Done
    requires { length outs.now ≡ 20 }
    ensures { slice_index outs.now 7 ≤ 4 → done_list result ≡ rets_of (slice_index outs.now 7) (drop 8 outs.now) }
{
    Done {
        count: outs[7],
        at: [
            retired_at(outs, 8),
            retired_at(outs, 11),
            retired_at(outs, 14),
            retired_at(outs, 17),
        ],
    }
}

// Whether a core can show these words.
fn is_sound(outs: &[u32]) -> bool
    ensures { result ≡ legal_out outs.now }
{
    outs.len() == 20
        && outs[0] <= 1
        && outs[2] <= 2
        && outs[5] <= 1
        && outs[7] <= 4
        && (outs[5] == 0 || outs[6] <= 2)
}

impl Outputs {
    // From twenty words; none where no core can show them.
    pub fn read(outs: &[u32]) -> Option<Outputs>
        ensures { ReadsOutputs outs.now result }
    {
        if !is_sound(outs) {
            return None;
        }
        Some(Outputs {
            want: given(outs[0], outs[1]),
            request: request_of(outs[2], outs[3], outs[4]),
            stopped: stop_of(outs[5], outs[6]),
            done: done_of(outs),
        })
    }

    // Writes the twenty words.
    pub fn write(&self, outs: &mut [u32])
        requires { length outs.old ≡ 20 }
        ensures { outs.new ≡ port_words self.now }
    {
        let (want, code) = flag_words(self.want);
        let (kind, address, value) = request_words(self.request);
        let (stopped, how) = flag_words(self.stopped.map(u32::from));
        let count = self.done.count.min(4);
        let [a, b, c, d] = self.done.at;
        outs.copy_from_slice(&[
            want, code, kind, address, value, stopped, how, count, a.pc, a.reg, a.value, b.pc,
            b.reg, b.value, c.pc, c.reg, c.value, d.pc, d.reg, d.value,
        ]);
    }
}
