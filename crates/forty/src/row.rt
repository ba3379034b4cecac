// One program with each delay.
use crate::end::End;
use crate::expected::Expected;
use asm::program::Program;
use sim::delay::Delay;
use sim::devices::Rest;
use std::alloc::Global;
use testbench::failure::Failure;
use testbench::ratio::Ratio;
use testbench::setup::Setup;
use testbench::summary::Summary;
use testbench::versus::versus;

// Runs are ended after so many clocks; none of the programs takes as many.
const LIMIT: u64 = 50_000;

// How long answers take in the runs that are shown.
const DELAYS: [Delay; 3] = [Delay::Fixed(0), Delay::Fixed(1), Delay::Fixed(7)];

// What a run came to, and whether it is right.
#[derive(Clone, Copy)]
struct Run {
    summary: Summary,
    right: bool,
}

// The runs that are shown, and one with random delays.
#[derive(Clone, Copy)]
pub struct Row {
    shown: [Run; 3],
    random: Run,
}

impl Row {
    pub fn of(heap: Global, program: &Program, expected: &[Expected]) -> Result<Row, Failure> {
        Ok(Row {
            shown: DELAYS.try_map(|delay| Run::of(heap, program, expected, delay))?,
            random: Run::of(heap, program, expected, Delay::UpTo(20))?,
        })
    }

    pub(crate) fn right(&self) -> bool {
        self.shown.iter().all(|run| run.right) && self.random.right
    }

    // The program's line in the table.
    pub fn line(&self, heap: Global, name: &str) -> Result<String, Failure> {
        let shown = self.shown.map(|run| run.summary);
        let instructions = shown[0].instructions;
        let [now, one, seven] = shown.map(|run| run.clocks);
        let [each_now, each_one, each_seven] = shown.try_map(|run| Ratio::from(&run).to_string(
            heap,
        ))?;
        let verdict = if self.right() { "ok" } else { "FAILED" };
        let front = format!(in heap; "{name:<20} {instructions:>12} {now:>6} {one:>6} {seven:>6}")?;
        let line = format!(in heap;
            "{front} {each_now:>6} {each_one:>6} {each_seven:>6}  {verdict}"
        )?;
        Ok(line)
    }
}

impl Run {
    // It is right if the core agrees with the manual clock by clock, and its end is as expected.
    fn of(
        heap: Global,
        program: &Program,
        expected: &[Expected],
        delay: Delay,
    ) -> Result<Run, Failure> {
        let setup = Setup {
            program,
            delay,
            rest: Rest::Zero,
            seed: 1,
        };
        let end = End::of(heap, &setup, LIMIT)?;
        let agrees = versus(heap, &setup, LIMIT)?.is_ok();
        Ok(Run {
            summary: end.summary,
            right: agrees && end.meets(expected),
        })
    }
}
