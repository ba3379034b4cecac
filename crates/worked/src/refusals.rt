// Calls that the core refuses: every buffer is then as it was.
use pins::{CORE_WORDS, Clocked, Started};
use std::alloc::{AllocError, Global};
use testbench::failure::Failure;

pub fn show(rt: &HostRuntime) -> Result<(), Failure> {
    let heap = rt.alloc();
    show_line(rt, "start with 65535 words", few_words(heap)?)?;
    for ins in [3, 5] {
        let what = format!(in heap; "clock with {ins} words in")?;
        show_line(rt, what.as_str(), no_ports(heap, ins, 20)?)?;
    }
    for outs in [19, 21] {
        let what = format!(in heap; "clock with {outs} words out")?;
        show_line(rt, what.as_str(), no_ports(heap, 4, outs)?)?;
    }
    show_line(
        rt,
        "clock with words that are no core",
        no_core(heap, CORE_WORDS)?,
    )?;
    show_line(rt, "clock with no words of a core", no_core(heap, 0)?)
}

fn show_line(rt: &HostRuntime, what: &str, refused: bool) -> Result<(), Failure> {
    let verdict = if refused { "refused, ok" } else { "FAILED" };
    println!(rt; "{what}: {verdict}")?;
    Ok(())
}

// Whether it is refused, which is what is shown; an error is want of memory.
fn few_words(heap: Global) -> Result<bool, AllocError> {
    let mut core = vec![in heap; 7u32; CORE_WORDS - 1]?;
    let before = core.clone()?;
    let few = ahead::start(0, &mut core) == Started::Few;
    Ok(few && core == before)
}

// The same of port words that are not four and twenty.
fn no_ports(heap: Global, ins: usize, outs: usize) -> Result<bool, AllocError> {
    let mut core = vec![in heap; 0u32; CORE_WORDS]?;
    let ready = ahead::start(0, &mut core) == Started::Ready;
    let before = core.clone()?;
    let ins = vec![in heap; 0u32; ins]?;
    let mut outs = vec![in heap; 7u32; outs]?;
    let outs_before = outs.clone()?;
    let refused = ahead::clock(&mut core, &ins, &mut outs) == Clocked::NoPorts;
    Ok(ready && refused && core == before && outs == outs_before)
}

// The same of words that are no core.
fn no_core(heap: Global, words: usize) -> Result<bool, AllocError> {
    let mut core = vec![in heap; 7u32; words]?;
    let before = core.clone()?;
    let mut outs = [7u32; 20];
    let refused = ahead::clock(&mut core, &[0; 4], &mut outs) == Clocked::NoCore;
    Ok(refused && core == before && outs == [7; 20])
}
