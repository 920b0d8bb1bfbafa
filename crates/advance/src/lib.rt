// id.rs: the counter behind a call, by value.
#![tactic(auto)]

ghost use Rattle.std.specs.Prelude.{◌≡◌, ◌^◌, ◌<◌};
ghost use Rattle.report.specs.Report.{counter_behind};

use entities::Counter;
use report::Answer;

// What a call answers, and the counter that it leaves.
#[derive(Clone, Copy)]
pub struct Advanced {
    pub counter: Counter,
    pub answer: Answer,
}

// The counter moves past the ids that the answer lists as created.
pub fn advance(counter: Counter, answer: Answer) -> Advanced
    requires { counter_behind counter.next answer < 2 ^ 64 }
    ensures { (result.counter.next ≡ counter_behind counter.next answer) × (result.answer ≡ answer) }
{
    let next = report::counter_behind(counter.next, answer);
    Advanced {
        counter: Counter { next },
        answer,
    }
}
