// The laws of every core with a window: each function's contract is the theorem.
ghost use Rattle.window.specs.Retiring.{RetiringLaws};
ghost use Rattle.window.specs.Right.{WindowRight};
ghost use Rattle.window.specs.Asking.{AskingLaws};
ghost use Rattle.window.specs.Datapaths.{DatapathLaws};
ghost use Rattle.window.specs.Eight.{EightRuns};
ghost use Rattle.window.specs.Fairness.{WindowGoesOn};
ghost use Rattle.window.specs.OldestFirst.{OldestFirstFair};
ghost use Rattle.window.specs.Queues.{QueueLaws};
ghost use Rattle.window.specs.Refining.{RefineLaws};
ghost use Rattle.window.specs.Rings.{RingLaws, BufferLaws};

// Whatever the schedule over tables T, and whatever is predicted: what is shown at the ports is what the manual says.
pub fn always_right<T>()
    ensures { WindowRight T }
{}

// With a schedule that is fair to the oldest instruction and to waiting stores it goes on.
pub fn goes_on<T>()
    ensures { WindowGoesOn T }
{}

// A schedule that puts the oldest first is fair, whatever it does else with tables U.
pub fn oldest_first_is_fair<U>()
    ensures { OldestFirstFair U }
{}

// One of them, with a window of eight, run by computing.
pub fn eight_runs()
    ensures { EightRuns }
{}

// A core with states A whose clock is that of a machine with states B: what is proved of the machine holds of the core.
pub fn refined<A, B>()
    ensures { RefineLaws A B }
{}

// The window as a ring: each method is the machine's rule on the list of its entries.
pub fn ring_is_list()
    ensures { RingLaws }
{}

// And so the store buffer.
pub fn buffer_is_list()
    ensures { BufferLaws }
{}

// And so the queues of open requests and of wanted words of code.
pub fn queues_are_lists()
    ensures { QueueLaws }
{}

// The datapath's rules are the machine's on the lists that it stands for.
pub fn datapath_is_machine()
    ensures { DatapathLaws }
{}

// And so are retiring and draining.
pub fn datapath_retires()
    ensures { RetiringLaws }
{}

// And requests for loads and devices, and stopping.
pub fn datapath_asks()
    ensures { AskingLaws }
{}
