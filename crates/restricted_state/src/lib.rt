// States of a restricted task by value, and a step by itself.
//
// A state is passed and returned by value. A step is that of the action's parts rows (crate restricted_step), taken where what the task
// declares of the state is sound: all values within the figure, all modes below their sizes.
#![tactic(auto)]

ghost use Rattle.std.specs.Prelude.{◌≡◌, ◌++◌, ◌≤◌, length, take, drop};
ghost use Rattle.answers.specs.Refusals.{refusal_is};
ghost use Rattle.model.specs.Limits.{restricted_limits};
ghost use Rattle.model.specs.Judging.{step_restricted_alone};
ghost use Rattle.model.specs.Steps.{values_within, modes_below_sizes, figure};
ghost use Rattle.file_actions.specs.Places.{BytesOfSome};
ghost use Rattle.restricted_step.specs.Sizes.{VARIABLES, MODES};
ghost use Rattle.restricted_step.specs.Steps.{state_of};
ghost use Rattle.restricted_state.specs.Alone.{step_answer_is, step_answer_of, StepTaken};
ghost use Rattle.restricted_state.specs.Step.{whole_is, RowFor, stepped, stepped_is, tried_is};

use answers::{Reason, Refusal};
use file_parts::{MARKS, NUMBERS};
use restricted_step::{FIGURE, MODES, VARIABLES};

// The value of each variable and of each mode. What stands beyond a task's variables and modes is not read, and comes back unchanged.
#[derive(Clone, Copy)]
pub struct State {
    pub values: [i64; VARIABLES],
    pub modes: [u16; MODES],
}

// What comes of a step by itself: whether it is refused, and the state after it; on a refusal the state before.
#[derive(Clone, Copy)]
pub struct StepAnswer {
    pub verdict: Result<(), Refusal>,
    pub state: State,
}

// Whether the first n values lie within the figure.
fn values_within(values: &[i64; VARIABLES], n: usize) -> bool
    requires { (n ≤ VARIABLES) × (n ≤ length values.now) }
    ensures { result ≡ values_within figure (take n values.now) }
{
    values[..n]
        .iter()
        .all(|value| integers::is_within(*value, FIGURE))
}

// Whether the first m modes have values below their sizes.
fn modes_below(modes: &[u16; MODES], m: usize, sizes: &[u16; MODES]) -> bool
    requires { (m ≤ MODES) × (m ≤ length modes.now) × (m ≤ length sizes.now) }
    ensures { result ≡ modes_below_sizes (take m sizes.now) (take m modes.now) }
{
    modes[..m]
        .iter()
        .zip(&sizes[..m])
        .all(|(mode, size)| *mode < *size)
}

// The first n values of one array in the place of those of another.
fn copy_front(to: &mut [i64; VARIABLES], from: &[i64; VARIABLES], n: usize)
    requires { (n ≤ VARIABLES) × (length to.old ≡ VARIABLES) × (length from.now ≡ VARIABLES) }
    ensures { to.new ≡ take n from.now ++ drop n to.old }
{
    to[..n].copy_from_slice(&from[..n]);
}

// A step in a lent state. Whether the action applies; where it doesn't, the state is spent. The declared values are moved before zeros, where
// the step by rows finds every value within the figure.
fn try_step(
    values: &mut [i64; VARIABLES],
    modes: &mut [u16; MODES],
    n: usize,
    m: usize,
    sizes: &[u16; MODES],
    marks: &[u16; MARKS],
    numbers: &[i64; NUMBERS],
) -> bool
    requires { (length values.old ≡ VARIABLES) × (length modes.old ≡ MODES) × RowFor n m sizes.now marks.now numbers.now }
    ensures { tried_is result (state_of values.new modes.new) (state_of values.old modes.old)
        ≡ stepped n m sizes.now marks.now numbers.now (state_of values.old modes.old) }
{
    if !values_within(values, n) {
        return false;
    }
    if !modes_below(modes, m, sizes) {
        return false;
    }
    let mut front = [0i64; VARIABLES];
    copy_front(&mut front, values, n);
    if !restricted_step::take(&mut front, modes, marks, numbers) {
        return false;
    }
    copy_front(values, &front, n);
    true
}

impl State {
    // Whether the action of two rows applies, in a task of n variables and m modes of these sizes: its conditions hold, and all values before and
    // after lie within the figure, all modes below their sizes.
    pub fn applies(
        self,
        n: usize,
        m: usize,
        sizes: &[u16; MODES],
        marks: &[u16; MARKS],
        numbers: &[i64; NUMBERS],
    ) -> bool
        requires { RowFor n m sizes.now marks.now numbers.now }
        ensures { result ≡ (stepped n m sizes.now marks.now numbers.now (whole_is self)).0 }
    {
        let mut values = self.values;
        let mut modes = self.modes;
        try_step(&mut values, &mut modes, n, m, sizes, marks, numbers)
    }

    // The state after it; the state before where it doesn't apply.
    pub fn next(
        self,
        n: usize,
        m: usize,
        sizes: &[u16; MODES],
        marks: &[u16; MARKS],
        numbers: &[i64; NUMBERS],
    ) -> State
        requires { RowFor n m sizes.now marks.now numbers.now }
        ensures { whole_is result ≡ (stepped n m sizes.now marks.now numbers.now (whole_is self)).1 }
    {
        let mut values = self.values;
        let mut modes = self.modes;
        if !try_step(&mut values, &mut modes, n, m, sizes, marks, numbers) {
            return self;
        }
        State { values, modes }
    }

    // The state after it, where it applies.
    pub fn step(
        self,
        n: usize,
        m: usize,
        sizes: &[u16; MODES],
        marks: &[u16; MARKS],
        numbers: &[i64; NUMBERS],
    ) -> Option<State>
        requires { RowFor n m sizes.now marks.now numbers.now }
        ensures { stepped_is self result ≡ stepped n m sizes.now marks.now numbers.now (whole_is self) }
    {
        if !self.applies(n, m, sizes, marks, numbers) {
            return None;
        }
        Some(self.next(n, m, sizes, marks, numbers))
    }
}

// The answer to a step that is refused: the state as it was handed in.
fn answer_refused(refusal: Refusal, state: State) -> StepAnswer
    ensures { step_answer_is result ≡ step_answer_of (whole_is state) (refusal_is refusal) }
{
    StepAnswer {
        verdict: Err(refusal),
        state,
    }
}

// The action that has these bytes, of an accepted file, taken from a state.
fn step_accepted(file: &[u8], bytes: &[u8], state: State) -> StepAnswer
    requires { BytesOfSome restricted_limits file.now bytes.now }
    ensures { StepTaken file.now bytes.now (whole_is state) result }
{
    let mut start = [0i64; VARIABLES];
    let mut sizes = [0u16; MODES];
    let mut first = [0u16; MODES];
    let mut marks = [0u16; MARKS];
    let mut numbers = [0i64; NUMBERS];
    let declared = file_declarations::read_restricted(file, &mut start, &mut sizes, &mut first);
    file_actions::decode_restricted(bytes, &mut marks, &mut numbers);
    match state.step(declared.variables, declared.modes, &sizes, &marks, &numbers) {
        Some(after) => StepAnswer {
            verdict: Ok(()),
            state: after,
        },
        None => answer_refused(Reason::DoesNotApply.at(0), state),
    }
}

// A step by itself: action k of a restricted file, taken from a state that is handed in. The file's refusals first, then 11 and 12 at place 0;
// on a refusal the state comes back as it was.
pub fn step_alone(file: &[u8], state: State, k: usize) -> StepAnswer
    ensures { step_answer_is result ≡ step_answer_of (whole_is state) (step_restricted_alone file.now (whole_is state) k) }
{
    match file_actions::restricted_action_bytes(file, k) {
        Ok(action) => step_accepted(file, action.bytes, state),
        Err(refusal) => answer_refused(file_actions::at_step(refusal), state),
    }
}
