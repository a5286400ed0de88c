// The rows of all actions of an accepted source file, made ready for many steps.
//
// The file is walked once, and each action is decoded once: its conditions on variables and modes and its mode effects become ranges and marks
// (narrowing.rt), its numeric effects stand behind them, in a block each. The conditions on sums of all of them stand in a row of their own (crate
// source_sums), and an action's marks name its own. What rows mean is said in crate source_step, specs/Row.antt. It never takes a step.
#![tactic(auto)]

mod narrowing;

ghost use Rattle.std.specs.Prelude.{◌≡◌, ◌+◌, ◌<◌, ◌≤◌, length, replicate, pos};
ghost use Rattle.integers.specs.All.{All};
ghost use Rattle.model.specs.Limits.{source_limits};
ghost use Rattle.model.specs.Reading.{verdict_of};
ghost use Rattle.model.specs.Decoding.{sum_conditions_of};
ghost use Rattle.model.specs.ActionBytes.{edge_of, action_part, decode_action};
ghost use Rattle.model.specs.TaskOk.{EffectOk};
ghost use Rattle.model.specs.Steps.{natural_at};
ghost use Rattle.file_parts.specs.Layout as layout;
ghost use Rattle.file_actions.specs.Places.{goal_part};
ghost use Rattle.file_actions.specs.Views.{plain_is, plain_action_of, SourceDecoded, fitting_source, numeric_is, effects_is};
ghost use Rattle.source_step.specs.Sizes.{VARIABLES, ACTIONS, EFFECTS};
ghost use Rattle.source_step.specs.Accepted.{AcceptedWith};
ghost use Rattle.source_step.specs.Ready.{sums_of, blank_marks, blank_numbers, Prepared};
ghost use Rattle.source_step.specs.Layout.{MARKS, NUMBERS};
ghost use Rattle.source_sums.specs.Found.{SumsOf, SumsAsk};
ghost use Rattle.source_ready.specs.Made.{term_at, TermsPut, HeadOf, HeadPut, terms_of_kind, BlankFrom, EffectPut, EffectsPut};
ghost use Rattle.source_ready.specs.Made.{Named, OwnBehind, OwnNamed, RowFits, RowMade, PlacedAt, ActionsPlaced, Declares, BlankRows, RowsMade};

use file_actions::{EFFECTS, Effect, Effects, NumericEffect, TERMS, Term};
use file_parts::{MARKS as PART_MARKS, NUMBERS as PART_NUMBERS};
use source_step::{
    ADD, BLOCK, CONSTANT, COUNT, KIND, LINEAR, LOWER, MANY, MARKS, MODES, NUMBERS, OPERAND,
    QUOTIENT, RESIDUE, SUMS_ROW, TARGET, TERM, UPPER, VARIABLES, WEIGHT,
};
use source_sums::PLACES;

// The variables and the weights of the first k terms of effect e, an L.
fn put_terms(
    marks: &mut [u16; MARKS],
    numbers: &mut [i64; NUMBERS],
    e: usize,
    k: usize,
    terms: [Term; TERMS],
)
    requires { (e < EFFECTS) × (k ≤ 4) × (length marks.old ≡ MARKS) × (length numbers.old ≡ NUMBERS) }
    ensures { TermsPut e k (term_at terms) marks.old numbers.old marks.new numbers.new }
{
    for i in 0..k {
        let term = terms[i];
        marks[TERM + BLOCK * e + i] = u16::from(term.variable);
        numbers[WEIGHT + BLOCK * e + i] = term.weight;
    }
}

// An effect but for its terms: its kind, target, operand and constant.
#[derive(Clone, Copy)]
struct Head {
    kind: u16,
    target: u8,
    operand: u8,
    constant: i64,
}

fn head_of(effect: Effect) -> Head
    ensures { HeadOf effect result }
{
    match effect {
        Effect::None => Head {
            kind: ADD,
            target: 0,
            operand: 0,
            constant: 0,
        },
        Effect::Add(target, c) => Head {
            kind: ADD,
            target,
            operand: 0,
            constant: c,
        },
        Effect::Linear(target, c) => Head {
            kind: LINEAR,
            target,
            operand: 0,
            constant: c,
        },
        Effect::Quotient(target, operand, c) => Head {
            kind: QUOTIENT,
            target,
            operand,
            constant: c,
        },
        Effect::Residue(target, operand, c) => Head {
            kind: RESIDUE,
            target,
            operand,
            constant: c,
        },
    }
}

// Effect e but for its terms, how many these are, and the bounds of its target.
fn put_head(
    marks: &mut [u16; MARKS],
    numbers: &mut [i64; NUMBERS],
    e: usize,
    n: usize,
    lower: &[i64; VARIABLES],
    upper: &[i64; VARIABLES],
    head: Head,
    count: u16,
)
    requires { (e < EFFECTS) × (n ≤ VARIABLES) }
    ensures { HeadPut e n lower.now upper.now head count marks.old numbers.old
        marks.new numbers.new }
{
    let target = u16::from(head.target);
    let operand = u16::from(head.operand);
    marks[KIND + BLOCK * e] = head.kind;
    marks[TARGET + BLOCK * e] = target;
    marks[OPERAND + BLOCK * e] = operand;
    marks[COUNT + BLOCK * e] = count;
    numbers[CONSTANT + BLOCK * e] = head.constant;
    numbers[LOWER + BLOCK * e] = source_step::value_of(lower, n, target);
    numbers[UPPER + BLOCK * e] = source_step::value_of(upper, n, target);
}

// How many of so many terms count for an effect of a kind.
fn counted(kind: u16, terms: usize) -> usize
    ensures { result ≡ terms_of_kind kind terms }
{
    if kind == LINEAR {
        return TERMS.min(terms);
    }
    0
}

// Effect e of an action, with its terms where it is an L.
fn put_effect(
    marks: &mut [u16; MARKS],
    numbers: &mut [i64; NUMBERS],
    e: usize,
    n: usize,
    lower: &[i64; VARIABLES],
    upper: &[i64; VARIABLES],
    place: NumericEffect,
)
    requires { (e < EFFECTS) × (n ≤ VARIABLES) × BlankFrom e marks.old numbers.old × EffectOk source_limits n (numeric_is place) }
    ensures { EffectPut e n lower.now upper.now (numeric_is place) marks.old numbers.old
        marks.new numbers.new }
{
    let head = head_of(place.effect);
    let count = counted(head.kind, place.term_count);
    put_terms(marks, numbers, e, count, place.terms);
    put_head(marks, numbers, e, n, lower, upper, head, count as u16);
}

// The numeric effects of an action, and how many they are.
fn put_effects(
    marks: &mut [u16; MARKS],
    numbers: &mut [i64; NUMBERS],
    n: usize,
    lower: &[i64; VARIABLES],
    upper: &[i64; VARIABLES],
    effects: Effects,
)
    requires { (n ≤ VARIABLES) × BlankFrom 0 marks.old numbers.old × (effects.count ≤ EFFECTS) × All (EffectOk source_limits n) (effects_is effects) }
    ensures { EffectsPut n lower.now upper.now (effects_is effects) marks.old numbers.old
        marks.new numbers.new }
{
    marks[MANY] = effects.count as u16;
    for e in 0..effects.count {
        put_effect(marks, numbers, e, n, lower, upper, effects.places[e]);
    }
}

// The rows of an action but for the marks that name its conditions on sums, in the place of zeros: of its parts row and its effects.
pub fn put_row(
    marks: &mut [u16; MARKS],
    numbers: &mut [i64; NUMBERS],
    n: usize,
    lower: &[i64; VARIABLES],
    upper: &[i64; VARIABLES],
    m: usize,
    sizes: &[u16; MODES],
    parts: &[u16; PART_MARKS],
    constants: &[i64; PART_NUMBERS],
    effects: Effects,
)
    requires { Named marks.old × (numbers.old ≡ replicate NUMBERS (pos 0))
        × RowFits n m lower.now upper.now sizes.now parts.now constants.now effects }
    ensures { RowMade n m lower.now upper.now sizes.now marks.old marks.new
        numbers.new (plain_is parts.now constants.now effects) }
{
    narrowing::put_ranges(numbers, lower, upper, parts, constants);
    narrowing::put_modes(marks, m, sizes, parts);
    put_effects(marks, numbers, n, lower, upper, effects);
}

// Action k of a file but for its K, by the places of its actions.
fn decode_placed(
    file: &[u8],
    places: &[usize; PLACES],
    k: usize,
    parts: &mut [u16; PART_MARKS],
    constants: &mut [i64; PART_NUMBERS],
) -> Effects
    requires { (k < ACTIONS) × PlacedAt file.now places.now k × (length parts.old ≡ layout.MARKS) × (length constants.old ≡ layout.NUMBERS) }
    ensures { SourceDecoded (fitting_source (plain_action_of (decode_action (action_part file.now k)))) parts.new
        constants.new result }
{
    file_actions::decode_source(
        file_actions::part(file, places[k], places[k + 1]),
        parts,
        constants,
    )
}

// The goal of an accepted file with so many actions but for its K, as an action: it has no effects.
fn decode_goal(
    file: &[u8],
    places: &[usize; PLACES],
    count: usize,
    parts: &mut [u16; PART_MARKS],
    constants: &mut [i64; PART_NUMBERS],
) -> Effects
    requires { (count ≤ ACTIONS) × (natural_at places.now count ≡ edge_of file.now count) × (length parts.old ≡ layout.MARKS)
        × (length constants.old ≡ layout.NUMBERS) }
    ensures { SourceDecoded (fitting_source (plain_action_of (decode_action (goal_part file.now count)))) parts.new
        constants.new result }
{
    file_actions::decode_source(
        file_actions::goal_from(file, places[count]),
        parts,
        constants,
    )
}

// Into marks of zeros the conditions on sums of an action or of the goal, which has these bytes, in a task with so many: those from `first` on. How
// many they are.
fn name_own(marks: &mut [u16; MARKS], part: &[u8], total: usize, first: usize) -> usize
    requires { (marks.old ≡ replicate MARKS 0) × OwnBehind (sum_conditions_of (decode_action part.now)) total first }
    ensures { OwnNamed (sum_conditions_of (decode_action part.now)) first marks.new result }
{
    if total == 0 {
        return 0;
    }
    let own = file_actions::decode_sums(part);
    source_sums::name_sums(marks, first, own.count);
    own.count
}

// The rows of the actions of an accepted file, of which there are `count`, by what it declares and by the places of its actions, with so many
// conditions on sums in all, whose row is made. The number of the goal's first.
fn prepare_actions(
    file: &[u8],
    places: &[usize; PLACES],
    count: usize,
    n: usize,
    lower: &[i64; VARIABLES],
    upper: &[i64; VARIABLES],
    m: usize,
    sizes: &[u16; MODES],
    total: usize,
    marks: &mut [[u16; MARKS]],
    numbers: &mut [[i64; NUMBERS]],
) -> usize
    requires { AcceptedWith (verdict_of source_limits file.now) count × Declares file.now n lower.now upper.now m sizes.now
        × ActionsPlaced file.now places.now count × BlankRows 0 marks.old numbers.old
        × SumsOf file.now total (sums_of numbers.old) × SumsAsk file.now count total (sums_of numbers.old) }
    ensures { RowsMade file.now count n lower.now upper.now m sizes.now total count result
        marks.new numbers.new }
{
    let mut parts = [0u16; PART_MARKS];
    let mut constants = [0i64; PART_NUMBERS];
    let mut first: usize = 0;
    for k in 0..count {
        let effects = decode_placed(file, places, k, &mut parts, &mut constants);
        let part = file_actions::part(file, places[k], places[k + 1]);
        let own = name_own(&mut marks[k], part, total, first);
        put_row(
            &mut marks[k],
            &mut numbers[k],
            n,
            lower,
            upper,
            m,
            sizes,
            &parts,
            &constants,
            effects,
        );
        first += own;
    }
    first
}

// The rows of the actions of an accepted file, of which there are `count`, by what it declares; behind them that of its goal, and last that of
// its sums. The tables are zeros before: each row is written where it stays.
pub fn prepare(
    file: &[u8],
    count: usize,
    n: usize,
    lower: &[i64; VARIABLES],
    upper: &[i64; VARIABLES],
    m: usize,
    sizes: &[u16; MODES],
    marks: &mut [[u16; MARKS]],
    numbers: &mut [[i64; NUMBERS]],
)
    requires { AcceptedWith (verdict_of source_limits file.now) count × Declares file.now n lower.now upper.now m sizes.now
        × (marks.old ≡ blank_marks) × (numbers.old ≡ blank_numbers) }
    ensures { Prepared file.now count n lower.now upper.now m sizes.now marks.new
        numbers.new }
{
    let mut places = [0usize; PLACES];
    file_actions::action_places(file, &mut places);
    let total = source_sums::find_sums(file, &places, count, &mut numbers[SUMS_ROW]);
    let first = prepare_actions(
        file, &places, count, n, lower, upper, m, sizes, total, marks, numbers,
    );
    let mut parts = [0u16; PART_MARKS];
    let mut constants = [0i64; PART_NUMBERS];
    let goal = decode_goal(file, &places, count, &mut parts, &mut constants);
    name_own(
        &mut marks[count],
        file_actions::goal_from(file, places[count]),
        total,
        first,
    );
    put_row(
        &mut marks[count],
        &mut numbers[count],
        n,
        lower,
        upper,
        m,
        sizes,
        &parts,
        &constants,
        goal,
    );
}
