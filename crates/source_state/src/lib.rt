// States of a source task by value, and a step by itself and its price.
//
// A state is passed and returned by value. A step is that of the action's row (crate source_step), in whatever state is handed in: a state outside
// the bounds of its task fails the row's test. A step's price is counted from the values before it (crate plan_strokes).
#![tactic(auto)]

ghost use Rattle.std.specs.Prelude.{◌≡◌, ◌≤◌, replicate, pos};
ghost use Rattle.model.specs.Limits.{source_limits};
ghost use Rattle.model.specs.Judging.{step_source_alone, price_step};
ghost use Rattle.file_actions.specs.Places.{BytesOfSome};
ghost use Rattle.source_step.specs.Sizes.{VARIABLES, MODES};
ghost use Rattle.source_step.specs.Row.{takes, Usable};
ghost use Rattle.source_state.specs.Step.{whole_is, stepped_is, stepped_by};
ghost use Rattle.source_state.specs.Alone.{step_answer_is, returned, StepTaken, RowRead};
ghost use Rattle.source_step.specs.Layout.{MARKS, NUMBERS};
ghost use Rattle.answers.specs.Refusals.{refusal_is, answer_of};
ghost use Rattle.source_state.specs.Priced.{StepPriced};

use answers::{Reason, Refusal};
use file_actions::EFFECTS;
use file_declarations::Declared;
use file_parts::{MARKS as PART_MARKS, NUMBERS as PART_NUMBERS};
use plan_strokes::STAGES;
use source_step::{MARKS, MODES, NUMBERS, VARIABLES};

// The value of each variable and of each mode. What stands beyond a task's variables and modes is not read, and comes back unchanged.
#[derive(Clone, Copy)]
pub struct State {
    pub values: [i64; VARIABLES],
    pub modes: [u16; MODES],
}

impl State {
    // Whether the action of a row applies, in a task of n variables and m modes.
    pub fn applies(
        self,
        n: usize,
        m: usize,
        marks: &[u16; MARKS],
        numbers: &[i64; NUMBERS],
        sums: &[i64; NUMBERS],
    ) -> bool
        requires { (n ≤ VARIABLES) × (m ≤ MODES) × Usable n marks.now numbers.now sums.now }
        ensures { result ≡ takes n m marks.now numbers.now sums.now self.values self.modes }
    {
        let mut values = self.values;
        let mut modes = self.modes;
        source_step::take(&mut values, &mut modes, n, m, marks, numbers, sums)
    }

    // The state after it; where it does not apply, the state before.
    pub fn next(
        self,
        n: usize,
        m: usize,
        marks: &[u16; MARKS],
        numbers: &[i64; NUMBERS],
        sums: &[i64; NUMBERS],
    ) -> State
        requires { (n ≤ VARIABLES) × (m ≤ MODES) × Usable n marks.now numbers.now sums.now }
        ensures { whole_is result ≡ (stepped_by n m marks.now numbers.now sums.now (whole_is self)).1 }
    {
        let mut values = self.values;
        let mut modes = self.modes;
        source_step::take(&mut values, &mut modes, n, m, marks, numbers, sums);
        State { values, modes }
    }

    // Both: the state after it, where it applies.
    pub fn step(
        self,
        n: usize,
        m: usize,
        marks: &[u16; MARKS],
        numbers: &[i64; NUMBERS],
        sums: &[i64; NUMBERS],
    ) -> Option<State>
        requires { (n ≤ VARIABLES) × (m ≤ MODES) × Usable n marks.now numbers.now sums.now }
        ensures { stepped_is self result ≡ stepped_by n m marks.now numbers.now sums.now (whole_is self) }
    {
        let applied = self.applies(n, m, marks, numbers, sums);
        let state = self.next(n, m, marks, numbers, sums);
        applied.then_some(state)
    }
}

// The rows of the action of an accepted file that has these bytes, and that of its own conditions on sums, in the place of zeros; how many
// variables and modes the file declares.
fn read_row(
    file: &[u8],
    bytes: &[u8],
    marks: &mut [u16; MARKS],
    numbers: &mut [i64; NUMBERS],
    sums: &mut [i64; NUMBERS],
) -> Declared
    requires bytes_of_some { BytesOfSome source_limits file.now bytes.now × (marks.old ≡ replicate MARKS 0) }
    requires numbers_value { (numbers.old ≡ replicate NUMBERS (pos 0)) × (sums.old ≡ replicate NUMBERS (pos 0)) }
    ensures { RowRead file.now bytes.now marks.new numbers.new sums.new result }
{
    let mut lower = [0i64; VARIABLES];
    let mut upper = [0i64; VARIABLES];
    let mut start = [0i64; VARIABLES];
    let mut sizes = [0u16; MODES];
    let mut first = [0u16; MODES];
    let declared = file_declarations::read_source(
        file, &mut lower, &mut upper, &mut start, &mut sizes, &mut first,
    );
    let n = declared.variables;
    let m = declared.modes;
    let mut parts = [0u16; PART_MARKS];
    let mut constants = [0i64; PART_NUMBERS];
    let effects = file_actions::decode_source(bytes, &mut parts, &mut constants);
    let own = file_actions::decode_sums(bytes);
    source_sums::put_sums(sums, 0, own);
    source_sums::name_sums(marks, 0, own.count);
    source_ready::put_row(
        marks, numbers, n, &lower, &upper, m, &sizes, &parts, &constants, effects,
    );
    declared
}

// What a step taken by itself answers: whether it is refused, and the state after; on a refusal, the state as it was handed in.
#[derive(Clone, Copy)]
pub struct StepAnswer {
    pub verdict: Result<(), Refusal>,
    pub state: State,
}

// The answer to a step that is refused: the state as it was handed in.
fn answer_refused(refusal: Refusal, state: State) -> StepAnswer
    ensures { step_answer_is result ≡ returned (whole_is state) (refusal_is refusal) }
{
    StepAnswer {
        verdict: Err(refusal),
        state,
    }
}

// Takes a step of the action that has these bytes in a state of an accepted file.
fn step_accepted(file: &[u8], bytes: &[u8], state: State) -> StepAnswer
    requires { BytesOfSome source_limits file.now bytes.now }
    ensures { StepTaken file.now bytes.now (whole_is state) result }
{
    let mut marks = [0u16; MARKS];
    let mut numbers = [0i64; NUMBERS];
    let mut sums = [0i64; NUMBERS];
    let declared = read_row(file, bytes, &mut marks, &mut numbers, &mut sums);
    match state.step(declared.variables, declared.modes, &marks, &numbers, &sums) {
        Some(after) => StepAnswer {
            verdict: Ok(()),
            state: after,
        },
        None => answer_refused(Reason::DoesNotApply.at(0), state),
    }
}

// A step of action k in a state, by itself.
pub fn step_alone(file: &[u8], state: State, k: usize) -> StepAnswer
    ensures { step_answer_is result ≡ returned (whole_is state) (step_source_alone file.now (whole_is state) k) }
{
    match file_actions::source_action_bytes(file, k) {
        Ok(action) => step_accepted(file, action.bytes, state),
        Err(refusal) => answer_refused(file_actions::at_step(refusal), state),
    }
}

// Prices a step of the action that has these bytes in a state of an accepted file.
fn price_accepted(file: &[u8], bytes: &[u8], state: State) -> Result<u64, Refusal>
    requires { BytesOfSome source_limits file.now bytes.now }
    ensures { StepPriced file.now bytes.now (whole_is state) result }
{
    let mut marks = [0u16; MARKS];
    let mut numbers = [0i64; NUMBERS];
    let mut sums = [0i64; NUMBERS];
    let declared = read_row(file, bytes, &mut marks, &mut numbers, &mut sums);
    let n = declared.variables;
    let m = declared.modes;
    if !state.applies(n, m, &marks, &numbers, &sums) {
        return Err(Reason::DoesNotApply.at(0));
    }
    let values = state.values;
    let mut times = [0i64; STAGES];
    let mut results = [0i64; EFFECTS];
    let count = plan_strokes::put_strokes(&mut times, &mut results, &values, n, &marks, &numbers);
    Ok(plan_strokes::price_of(&times, count))
}

// The price of a step of action k in a state, by itself. It is refused as by taking it.
pub fn price_step(file: &[u8], state: State, k: usize) -> Result<u64, Refusal>
    ensures { answer_of result ≡ price_step file.now (whole_is state) k }
{
    match file_actions::source_action_bytes(file, k) {
        Ok(action) => price_accepted(file, action.bytes, state),
        Err(refusal) => Err(file_actions::at_step(refusal)),
    }
}
