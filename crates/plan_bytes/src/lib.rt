// A plan's bytes: whether they are a plan at all, how many steps it has, the action number of each, and how often one number stands in a
// row. It knows no task.
#![tactic(auto)]

ghost use Rattle.std.specs.Prelude.{◌≡◌, ◌+◌, ◌*◌, ◌<◌, ◌≤◌, length, get_or, drop, replicate, IsTrue};
ghost use Rattle.model.specs.Plans.{plan_numbers};
ghost use Rattle.model.specs.Following.{agreeing};
ghost use Rattle.plan_bytes.specs.Agreeing.{four_at, Fours, Passed};
ghost use Rattle.answers.specs.Refusals.{answer_of};
ghost use Rattle.plan_bytes.specs.Counted.{count_of};

use answers::{Reason, Refusal};

// The bytes of the longest plan.
const LONGEST: usize = 2000000;

// How many steps a plan has, 1,000,000 at most; or the refusal of its length, placed at it.
pub fn count_steps(plan: &[u8]) -> Result<usize, Refusal>
    ensures { answer_of result ≡ count_of plan.now }
{
    let length = plan.len();
    if length % 2 == 1 || LONGEST < length {
        return Err(Reason::PlanLength.at(length as u64));
    }
    Ok(length / 2)
}

// The action number of step i.
pub fn action_of(plan: &[u8], i: usize) -> u16
    requires { 2 * i + 1 < length plan.now }
    ensures { result ≡ get_or (plan_numbers plan.now) i 0 }
{
    let place = 2 * i;
    u16::from_le_bytes([plan[place], plan[place + 1]])
}

// The numbers of four steps from step i on, as one of 64 bits: a single read of the machine.
fn four_at(plan: &[u8], i: usize) -> u64
    requires { 2 * i + 7 < length plan.now }
    ensures { result ≡ four_at (plan_numbers plan.now) i }
{
    action_of(plan, i) as u64
        + 65536 * action_of(plan, i + 1) as u64
        + 4294967296 * action_of(plan, i + 2) as u64
        + 281474976710656 * action_of(plan, i + 3) as u64
}

// Whether so many fours from step i on are one number of 64 bits.
fn all_fours<const FOURS: usize>(plan: &[u8], i: usize, four: u64) -> bool
    requires { 2 * (i + 4 * FOURS) ≤ length plan.now }
    ensures { IsTrue result → Fours (plan_numbers plan.now) i FOURS four }
{
    for j in 0..FOURS {
        if four_at(plan, i + 4 * j) != four {
            return false;
        }
    }
    true
}

// Of `most` numbers from step `at` on, the first so many of which have been found to be `number`: how many there are with the next blocks
// of so many fours.
fn pass_blocks<const FOURS: usize>(
    plan: &[u8],
    at: usize,
    number: u16,
    most: usize,
    passed: usize,
) -> usize
    requires some { (0 < FOURS) × (FOURS ≤ 4) }
    requires most_in_bounds { 2 * (at + most) ≤ length plan.now }
    requires passed { Passed number (drop at (plan_numbers plan.now)) most passed }
    ensures { Passed number (drop at (plan_numbers plan.now)) most result }
{
    let four = number as u64 * 0x1_0001_0001_0001;
    let mut i = passed;
    while most - i >= 4 * FOURS {
        if !all_fours::<FOURS>(plan, at + i, four) {
            return i;
        }
        i += 4 * FOURS;
    }
    i
}

// And with the next one at a time, which is all.
fn pass_ones(plan: &[u8], at: usize, number: u16, most: usize, passed: usize) -> usize
    requires most_in_bounds { 2 * (at + most) ≤ length plan.now }
    requires passed { Passed number (drop at (plan_numbers plan.now)) most passed }
    ensures { result ≡ agreeing (replicate most number) (drop at (plan_numbers plan.now)) }
{
    for i in passed..most {
        if action_of(plan, at + i) != number {
            return i;
        }
    }
    most
}

// How many of the next `count` numbers from step `at` on are `number`: they are compared by sixteen, by four and one at a time.
pub fn matches_run(plan: &[u8], at: usize, number: u16, count: usize) -> usize
    requires { at ≤ length (plan_numbers plan.now) }
    ensures { result ≡ agreeing (replicate count number) (drop at (plan_numbers plan.now)) }
{
    let most = count.min(plan.len() / 2 - at);
    let sixteens = pass_blocks::<4>(plan, at, number, most, 0);
    let fours = pass_blocks::<1>(plan, at, number, most, sixteens);
    pass_ones(plan, at, number, most, fours)
}
