// Laws of the outside and of any core, that no core owns: each function's contract is the theorem, and its proof the theorem's.
ghost use Rattle.pins.specs.History.{HistoryLaws};
ghost use Rattle.pins.specs.View.{ViewLaws};
ghost use Rattle.pins.specs.Settled.{SettledLaws};
ghost use Rattle.pins.specs.Waits.{WaitLaws};
ghost use Rattle.pins.specs.Fronts.{FrontLaws};
ghost use Rattle.pins.specs.Walkthrough.{Walked};
ghost use Rattle.pins.specs.Beside.{BesideLaws};
ghost use Rattle.pins.specs.Reach.{ReachLaws, CallLaws};
ghost use Rattle.pins.specs.Progress.{ProgressLaws};

// The beginning of a list, as the promise of the ports has it, by what stands behind it.
pub fn fronts<T>()
    ensures { FrontLaws T }
{}

// The outside and what was shown, over histories put together.
pub fn histories()
    ensures { HistoryLaws }
{}

// One clock more is its answers taken from the view and what it shows added.
pub fn view_by_clocks()
    ensures { ViewLaws }
{}

// What an open request will be answered with is settled when it is asked for; memory is the first with the effects done.
pub fn settled_answers()
    ensures { SettledLaws }
{}

// One history clock by clock, as the documents walk through it.
pub fn walkthrough()
    ensures { Walked }
{}

// What is open gets older clock by clock, and with answers within l clocks all of it is answered by l + 1.
pub fn waits()
    ensures { WaitLaws }
{}

// The manual beside what the ports have shown: what a device's answer and a retired instruction do to both.
pub fn manual_beside()
    ensures { BesideLaws }
{}

// Of any core with states S: a history of two parts goes through a state between them.
pub fn reach<S>()
    ensures { ReachLaws S }
{}

// Of any core with states S: what its calls have to show of their words.
pub fn calls<S>()
    ensures { CallLaws S }
{}

// Of any core with states S: ranks that fall make it go on.
pub fn progress<S>()
    ensures { ProgressLaws S }
{}
