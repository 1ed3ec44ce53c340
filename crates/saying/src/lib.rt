// Lines and their answers: each line goes to the engine, and what it answers is said into the output buffer.
#![tactic(auto)]

ghost use Rattle.std.specs.Prelude.{List, ◌++◌, ◌≡◌, ℕ, ◌<◌, Option, length};
ghost use Rattle.engine.specs.Engine.{Engine};
ghost use Rattle.engine.specs.Calls.{Holds};
ghost use Rattle.framing.specs.Framing.{pending_of};
ghost use Rattle.transcript.specs.Session.{as_text, later_lines, Progress, with_line};
ghost use Rattle.output.specs.Waits.{Sent, Waits};
ghost use Rattle.output.specs.Output.{FailureKept, buffered, all_said_into};
ghost use Rattle.saying.specs.Standing.{At};
ghost use Rattle.saying.specs.Saying.{said_to};

use engine::State;
use framing::Pending;
use output::Waiting;
use std::io::Write;
use std::rt::Clock;

// Every term of a polynomial over 16 positions: 16^3 of three positions, 3 times 16^2 of two, 3 times 16 of one.
const MOST_TERMS: usize = 4912;

// The engine and its answers that wait.
#[derive(Clone, Copy, Debug, PartialEq, Eq)]
pub struct Session {
    pub state: State,
    pub waiting: Waiting,
}

// The lines of a listing, fetched by number until there is none.
fn list<W: Write, T: Clock + Eprint>(
    output: &mut W,
    rt: &T,
    state: &State,
    out: &mut [u8],
    waiting: &mut Waiting,
)
    ensures waits { (e : Engine) (h said : List ℕ) → Holds e state.now h → 64 < length out.old → Waits said out.old waiting.old →
        Waits (said ++ as_text (later_lines e)) out.new waiting.new }
    ensures failure_kept { FailureKept waiting.old waiting.new }
    ensures result_after { (e : Engine) (h : List ℕ) → Holds e state.now h → 64 < length out.old →
        buffered out.new waiting.new ≡ all_said_into (buffered out.old waiting.old) (later_lines e) }
    ensures sent { (e : Engine) (h : List ℕ) (before : Option (List ℕ)) (said : List ℕ) → Holds e state.now h → 64 < length out.old →
        Sent before said out.old waiting.old (W.contents output.old) →
        Sent before (said ++ as_text (later_lines e)) out.new waiting.new (W.contents output.new) }
{
    let mut answer = [0u8; 64];
    for number in 1..=MOST_TERMS {
        let len = state.later_line(number, &mut answer).len;
        if len == 0 {
            return;
        }
        waiting.say(output, rt, out, framing::front(&answer, len));
    }
}

impl Session {
    // A line, its answer and, if that opens a listing, the lines of it. A line of no bytes has no answer.
    fn take_line<W: Write, T: Clock + Eprint>(
        &mut self,
        output: &mut W,
        rt: &T,
        history: &mut [u32],
        out: &mut [u8],
        line: &[u8],
    )
        ensures at { (p : Progress) → At p self.old history.old out.old →
            At (with_line p line.now) self.new history.new out.new }
        ensures failure_kept { FailureKept self.old.waiting self.new.waiting }
        ensures waiting_after { (p : Progress) → At p self.old history.old out.old →
            buffered out.new self.new.waiting ≡ all_said_into (buffered out.old self.old.waiting) (said_to p line.now) }
        ensures sent { (p : Progress) (before : Option (List ℕ)) → At p self.old history.old out.old →
            Sent before p.said out.old self.old.waiting (W.contents output.old) →
            Sent before (with_line p line.now).said out.new self.new.waiting (W.contents output.new) }
    {
        let mut answer = [0u8; 64];
        let len = self.state.take_line(history, line, &mut answer).len;
        if len == 0 {
            return;
        }
        self.waiting
            .say(output, rt, out, framing::front(&answer, len));
        if self.state.listed {
            list(output, rt, &self.state, out, &mut self.waiting);
        }
    }

    // The line that was kept, taken as the whole line would be.
    pub fn take_pending<W: Write, T: Clock + Eprint>(
        &mut self,
        output: &mut W,
        rt: &T,
        history: &mut [u32],
        out: &mut [u8],
        pending: &Pending,
    )
        ensures at { (p : Progress) (line : List ℕ) → At p self.old history.old out.old → pending.now ≡ pending_of line →
            At (with_line p line) self.new history.new out.new }
        ensures failure_kept { FailureKept self.old.waiting self.new.waiting }
        ensures waiting_after { (p : Progress) (line : List ℕ) → At p self.old history.old out.old → pending.now ≡ pending_of line →
            buffered out.new self.new.waiting ≡ all_said_into (buffered out.old self.old.waiting) (said_to p line) }
        ensures sent { (p : Progress) (line : List ℕ) (before : Option (List ℕ)) → At p self.old history.old out.old →
            pending.now ≡ pending_of line → Sent before p.said out.old self.old.waiting (W.contents output.old) →
            Sent before (with_line p line).said out.new self.new.waiting (W.contents output.new) }
    {
        let line = framing::front(&pending.bytes, pending.len);
        self.take_line(output, rt, history, out, line);
    }
}
