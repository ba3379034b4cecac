// Laws of the manual that no core owns: each function's contract is the theorem, and its proof the theorem's.
ghost use Rattle.isa.specs.Single.{SingleLaws};
ghost use Rattle.isa.specs.Traces.{StepLaws};
ghost use Rattle.isa.specs.Runs.{RunLaws, RunByTrace, AnswerLaws};
ghost use Rattle.isa.specs.Widths.{WidthLaws};

// One instruction: decoded, and worked out at its operands, it is the manual's.
pub fn single_instructions()
    ensures { SingleLaws }
{}

// One step: its trace and its effects say what it did to registers, memory and answers, and when it stops.
pub fn step_by_trace()
    ensures { StepLaws }
{}

// The run, one instruction after the other: what one more adds, and that what n did is the beginning of what more do.
pub fn run_by_steps()
    ensures { RunLaws }
{}

// After n instructions memory, answers and the number of registers follow from what they did.
pub fn run_by_trace()
    ensures { RunByTrace }
{}

// More answers of devices behind change nothing of a run that did not run out of them.
pub fn run_with_more_answers()
    ensures { AnswerLaws }
{}

// From words come words: registers, address, memory and answers fit 32 bits all along.
pub fn run_of_words()
    ensures { WidthLaws }
{}
