// A stage of a macro as a struct of numbers, made by a constructor for each kind, and the actions that it becomes, as parts rows.
//
// It knows the effects of one action and the numbers that it needs of its task, never a file, and it writes no byte.
#![tactic(auto)]

ghost use Rattle.std.specs.Prelude.{◌≡◌, cond, List, [], ◌∷◌, ℕ, suc, ◌+◌, ◌*◌, ◌≤◌, ◌<◌, length, drop, ℤ, pos, nat_abs, neg_ℤ, ◌-ℤ◌};
ghost use Rattle.std.proofs.Math.Option.{some};
ghost use Rattle.std.proofs.Math.ListN.{get_elem?};
ghost use Rattle.integers.specs.Division.{unit_less, sign};
ghost use Rattle.model.specs.Tasks.{Effect as ModelEffect};
ghost use Rattle.model.specs.Limits.{source_limits};
ghost use Rattle.model.specs.TaskOk.{InRange, Factor, EffectOk};
ghost use Rattle.model.specs.Steps.{target};
ghost use Rattle.model.specs.Stages.{Stage as ModelStage, Name, hold, drain, refill, divide, empty, move, move_to_hold, drain_terms, result_stages, result_in};
ghost use Rattle.model.specs.Stages.{hold_stages, set_stages, unload_stages, single_stages, stages_of};
ghost use Rattle.model.specs.Lowering.{number_of_name, numbered_additions};
ghost use Rattle.source_step.specs.Sizes.{VARIABLES};
ghost use Rattle.file_parts.specs.Layout.{MARKS, NUMBERS};
ghost use Rattle.file_parts.specs.Row.{row_is, PartsFit, Says};
ghost use Rattle.file_parts.specs.With.{with_condition, with_conditions, with_addition, with_additions};
ghost use Rattle.file_actions.specs.Views.{effect_room, term_room, terms_is, numeric_is, effects_is};
ghost use Rattle.lowering_stages.specs.Stages.{signed, added_is, asked_is, given_is, threshold_is, stroke_is, turn_is, Small, Stands};
ghost use Rattle.lowering_stages.specs.Stages.{StandsAt, FoundAt, entering_amount, next_amount};
ghost use Rattle.lowering_stages.specs.Stages.{most_result_stages, most_stages, stage_numbers, PlaceOk, PlacesFew, PlacesOk, BoundsSmall, WeightsSmall};
ghost use Rattle.lowering_stages.specs.Shapes.{lower_of, upper_of, Bounded, next_number};
ghost use Rattle.lowering_stages.specs.Openings.{bound_is, with_numeric, with_opening};

use file_actions::{Effect, Effects, NumericEffect, TERMS, Term};
use file_parts::{MARKS, NUMBERS};
use source_step::{MODES, VARIABLES};

// What the lowering must know of a task: its variables with their bounds, and its modes with their sizes.
#[derive(Clone, Copy)]
pub struct Shape {
    pub variables: usize,
    pub lower: [i64; VARIABLES],
    pub upper: [i64; VARIABLES],
    pub modes: usize,
    pub sizes: [u16; MODES],
}

// Two relations of a C by their numbers: ≤ and ≥.
pub const AT_MOST: u8 = 1;

pub const AT_LEAST: u8 = 2;

// The most that a stroke adds.
const ADDED: usize = 4;

// A stage: its counter; what falling takes from it; how deep it may stay below 0 at the turn; what falling adds, the counter's own loss
// among it, the first `added` of two arrays; the bounds of a target that the turn tests, where it does; what the turn adds to A.
#[derive(Clone, Copy)]
pub struct Stage {
    pub counter: u8,
    pub unit: i64,
    pub deep: i64,
    pub added: usize,
    pub variables: [u8; ADDED],
    pub amounts: [i64; ADDED],
    pub bounded: bool,
    pub target: u8,
    pub lower: i64,
    pub upper: i64,
    pub gives: i64,
}

// What the stages have in common that ask for no bounds and give nothing.
const PLAIN: Stage = Stage {
    counter: 0,
    unit: 1,
    deep: 0,
    added: 2,
    variables: [0; ADDED],
    amounts: [0; ADDED],
    bounded: false,
    target: 0,
    lower: 0,
    upper: 0,
    gives: 0,
};

// Drain of a variable.
fn drain_of(a: u8, t: u8, w: i64) -> Stage
    requires { (a ≤ VARIABLES) × InRange source_limits w }
    ensures { Stands a (drain t w) result }
{
    Stage {
        counter: t,
        added: 3,
        variables: [t, a, a + 1, 0],
        amounts: [-1, w, 1, 0],
        ..PLAIN
    }
}

// Refill of a variable.
fn refill_of(a: u8, t: u8) -> Stage
    requires { a ≤ VARIABLES }
    ensures { Stands a (refill t) result }
{
    Stage {
        counter: a + 1,
        variables: [t, a + 1, 0, 0],
        amounts: [1, -1, 0, 0],
        ..PLAIN
    }
}

// Divide by c.
fn divide_of(a: u8, c: i64) -> Stage
    requires { (a ≤ VARIABLES) × Factor source_limits c }
    ensures { Stands a (divide c) result }
{
    let unit = c.abs();
    Stage {
        counter: a,
        unit,
        variables: [a, a + 1, 0, 0],
        amounts: [-unit, c.signum(), 0, 0],
        ..PLAIN
    }
}

// Empty of A or B, or Clear of a target: the variable with this number.
fn empty_of(v: u8) -> Stage
    ensures { (a : ℕ) (name : Name) → v ≡ number_of_name a name → Stands a (empty name) result }
{
    Stage {
        counter: v,
        added: 1,
        variables: [v, 0, 0, 0],
        amounts: [-1, 0, 0, 0],
        ..PLAIN
    }
}

// Move to a target with these bounds, from the variable with this number.
fn move_of(t: u8, v: u8, lower: i64, upper: i64) -> Stage
    requires { BoundsSmall lower upper }
    ensures { (a : ℕ) (name : Name) → v ≡ number_of_name a name → Stands a (move t name lower upper) result }
{
    Stage {
        counter: v,
        variables: [t, v, 0, 0],
        amounts: [1, -1, 0, 0],
        bounded: true,
        target: t,
        lower,
        upper,
        ..PLAIN
    }
}

// The number of hold e.
fn hold_number(a: u8, e: usize) -> u8
    requires { (a ≤ VARIABLES) × (e < effect_room) }
    ensures { result ≡ number_of_name a (hold e) }
{
    a + 2 + e as u8
}

// Move without bound test into hold e, from the variable with this number; its turn gives A so much.
fn hold_of(a: u8, e: usize, v: u8, gives: i64) -> Stage
    requires { (a ≤ VARIABLES) × (e < effect_room) × InRange source_limits gives }
    ensures { (name : Name) (entering : List (Name × ℤ)) → v ≡ number_of_name a name → given_is a gives ≡ numbered_additions a entering
        → Stands a (move_to_hold e name entering) result }
{
    Stage {
        counter: v,
        variables: [v, hold_number(a, e), 0, 0],
        amounts: [-1, 1, 0, 0],
        gives,
        ..PLAIN
    }
}

// Drain and then Refill of a variable.
fn term_stage(a: u8, t: u8, w: i64, j: usize) -> Stage
    requires { (a ≤ VARIABLES) × InRange source_limits w }
    ensures { StandsAt a (drain t w ∷ refill t ∷ []) j result }
{
    if j == 0 {
        return drain_of(a, t, w);
    }
    refill_of(a, t)
}

// Stage j of an L with k terms, before Clear.
fn linear_stage(a: u8, k: usize, terms: [Term; TERMS], j: usize) -> Stage
    requires { (a ≤ VARIABLES) × (k ≤ term_room) × (j < 2 * k) × WeightsSmall k terms }
    ensures { StandsAt a (drain_terms (terms_is k terms) []) j result }
{
    let term = terms[j / 2];
    term_stage(a, term.variable, term.weight, j % 2)
}

// Stage j of a Q or an R, before Clear; `emptied` is the helper that does not have the result.
fn division_stage(a: u8, y: u8, c: i64, emptied: u8, j: usize) -> Stage
    requires { (a ≤ VARIABLES) × Factor source_limits c }
    ensures { (name : Name) → emptied ≡ number_of_name a name → StandsAt a (drain y (pos 1) ∷ refill y ∷ divide c ∷ empty name ∷ []) j result }
{
    match j {
        2 => divide_of(a, c),
        3 => empty_of(emptied),
        _ => term_stage(a, y, 1, j),
    }
}

// Stage j of an effect, before Clear.
fn result_stage(place: NumericEffect, a: u8, j: usize) -> Stage
    requires { (a ≤ VARIABLES) × PlaceOk a place × (j < length (result_stages (numeric_is place) [])) }
    ensures { StandsAt a (result_stages (numeric_is place) []) j result }
{
    let b = a + 1;
    let effect = place.effect;
    let terms = place.terms;
    match effect {
        Effect::None => empty_of(a),
        Effect::Add(t, _) => term_stage(a, t, 1, j),
        Effect::Linear(_, _) => linear_stage(a, place.term_count, terms, j),
        Effect::Quotient(_, y, c) => division_stage(a, y, c, a, j),
        Effect::Residue(_, y, c) => division_stage(a, y, c, b, j),
    }
}

// How many stages an effect has before Clear.
fn result_count(place: NumericEffect) -> usize
    requires { place.term_count ≤ term_room }
    ensures { (result ≡ length (result_stages (numeric_is place) [])) × (result ≤ most_result_stages) }
{
    match place.effect {
        Effect::None | Effect::Add(_, _) => 2,
        Effect::Linear(_, _) => 2 * place.term_count,
        Effect::Quotient(_, _, _) | Effect::Residue(_, _, _) => 4,
    }
}

// The helper in which an effect's stages leave its result.
fn result_in(place: NumericEffect, a: u8) -> u8
    requires { a ≤ VARIABLES }
    ensures { result ≡ number_of_name a (result_in (numeric_is place)) }
{
    match place.effect {
        Effect::None | Effect::Add(_, _) | Effect::Linear(_, _) | Effect::Residue(_, _, _) => a,
        Effect::Quotient(_, _, _) => a + 1,
    }
}

// The target of an effect.
fn target_of(place: NumericEffect) -> u8
    ensures { result ≡ target (numeric_is place) }
{
    match place.effect {
        Effect::None => 0,
        Effect::Add(t, _) | Effect::Linear(t, _) => t,
        Effect::Quotient(t, _, _) | Effect::Residue(t, _, _) => t,
    }
}

// What entering an effect's stages adds to A.
fn entering_amount(place: NumericEffect) -> i64
    ensures { result ≡ entering_amount (numeric_is place) }
{
    match place.effect {
        Effect::None | Effect::Quotient(_, _, _) | Effect::Residue(_, _, _) => 0,
        Effect::Add(_, c) => c,
        Effect::Linear(_, w) => w,
    }
}

// Clear of a target, and then Move to it from the variable with this number.
fn set_stage(shape: Shape, t: u8, v: u8, j: usize) -> Stage
    requires { Bounded shape }
    ensures { (a : ℕ) (name : Name) → v ≡ number_of_name a name → StandsAt a (set_stages (lower_of shape) (upper_of shape) name t []) j result }
{
    if j == 0 {
        return empty_of(t);
    }
    let (lower, upper) = bounds_of(shape, t);
    move_of(t, v, lower, upper)
}

// Stage j of a single effect.
fn single_stage(place: NumericEffect, shape: Shape, a: u8, j: usize) -> Stage
    requires { (a ≤ VARIABLES) × PlaceOk a place × Bounded shape × (j < length (single_stages (lower_of shape) (upper_of shape) (numeric_is place))) }
    ensures { StandsAt a (single_stages (lower_of shape) (upper_of shape) (numeric_is place)) j result }
{
    let count = result_count(place);
    if j < count {
        return result_stage(place, a, j);
    }
    let t = target_of(place);
    let v = result_in(place, a);
    set_stage(shape, t, v, j - count)
}

// How many stages a single effect has; none where the action stays one action.
fn single_count(place: NumericEffect) -> usize
    requires { place.term_count ≤ term_room }
    ensures { ((lower upper : ℕ → ℤ) → result ≡ length (single_stages lower upper (numeric_is place))) × (result ≤ most_result_stages + 2) }
{
    match place.effect {
        Effect::None | Effect::Add(_, _) => 0,
        Effect::Linear(_, _) => 2 * place.term_count + 2,
        Effect::Quotient(_, _, _) | Effect::Residue(_, _, _) => 6,
    }
}

// Of several effects, what the turn into hold e gives A: what entering the stages of the next adds.
fn next_amount(effects: Effects, e: usize) -> i64
    requires { (effects.count ≤ effect_room) × (e < effects.count) }
    ensures { result ≡ next_amount (drop (e + 1) (effects_is effects)) }
{
    let next = e + 1;
    if next < effects.count {
        let place = effects.places[next];
        return entering_amount(place);
    }
    0
}

// Of several effects, stage j of those of effect e up to its Move into a hold.
fn held_stage(effects: Effects, a: u8, e: usize, j: usize) -> Stage
    requires a_bound { (a ≤ VARIABLES) × PlacesOk a effects × (e < effects.count) }
    requires j_in_bounds { (x : ModelEffect) → get_elem? (effects_is effects) e ≡ some x → j ≤ length (result_stages x []) }
    ensures { (rest : List ModelStage) → StandsAt a (hold_stages e (drop e (effects_is effects)) rest) j result }
{
    let place = effects.places[e];
    let count = result_count(place);
    if j < count {
        return result_stage(place, a, j);
    }
    let v = result_in(place, a);
    let gives = next_amount(effects, e);
    hold_of(a, e, v, gives)
}

// Of several effects, stage j of those behind the Moves into holds: of each target Clear, and Move from its hold.
fn unload_stage(effects: Effects, shape: Shape, a: u8, j: usize) -> Stage
    requires { (a ≤ VARIABLES) × (effects.count ≤ effect_room) × Bounded shape × (j < 2 * effects.count) }
    ensures { StandsAt a (unload_stages (lower_of shape) (upper_of shape) 0 (effects_is effects)) j result }
{
    let e = j / 2;
    let place = effects.places[e];
    let t = target_of(place);
    let v = hold_number(a, e);
    set_stage(shape, t, v, j % 2)
}

// Where a stage of several effects stands.
#[derive(Clone, Copy)]
struct Found {
    effect: usize,
    stage: usize,
}

// Where stage j of several effects stands: in the stages of which effect, and as which of them.
fn find_stage(effects: Effects, j: usize) -> Found
    requires { PlacesFew effects }
    ensures { FoundAt (effects_is effects) j result }
{
    let mut left = j;
    for e in 0..effects.count {
        let last = result_count(effects.places[e]);
        if left <= last {
            return Found {
                effect: e,
                stage: left,
            };
        }
        left -= last + 1;
    }
    Found {
        effect: effects.count,
        stage: left,
    }
}

// Stage j of an action with these effects.
pub fn stage_at(effects: Effects, shape: Shape, a: u8, j: usize) -> Stage
    requires { (a ≤ VARIABLES) × PlacesOk a effects × Bounded shape
        × (j < length (stages_of (lower_of shape) (upper_of shape) (effects_is effects))) }
    ensures { StandsAt a (stages_of (lower_of shape) (upper_of shape) (effects_is effects)) j result }
{
    let count = effects.count;
    if count < 2 {
        let place = effects.places[0];
        return single_stage(place, shape, a, j);
    }
    let found = find_stage(effects, j);
    let e = found.effect;
    if e < count {
        return held_stage(effects, a, e, found.stage);
    }
    unload_stage(effects, shape, a, found.stage)
}

// How many stages several effects have.
fn several_count(effects: Effects) -> usize
    requires { PlacesFew effects }
    ensures { ((lower upper : ℕ → ℤ) → result ≡ length (hold_stages 0 (effects_is effects) (unload_stages lower upper 0 (effects_is effects))))
        × (result ≤ most_stages) }
{
    let mut total = 0;
    for e in 0..effects.count {
        total += result_count(effects.places[e]) + 3;
    }
    total
}

// How many stages an action with these effects has.
pub fn stage_count(effects: Effects) -> usize
    requires { PlacesFew effects }
    ensures { ((lower upper : ℕ → ℤ) → result ≡ length (stages_of lower upper (effects_is effects))) × (result ≤ most_stages) }
{
    let count = effects.count;
    if count == 0 {
        return 0;
    }
    if count == 1 {
        let place = effects.places[0];
        return single_count(place);
    }
    several_count(effects)
}

// What the turn of a stage sets control to, so many stages following.
pub fn next_stage(number: u16, following: usize) -> u16
    requires { number ≤ 2 * stage_numbers }
    ensures { result ≡ next_number number following }
{
    if following == 0 {
        return 0;
    }
    number + 1
}

// The bounds of a variable.
fn bounds_of(shape: Shape, variable: u8) -> (i64, i64)
    requires { shape.variables ≤ VARIABLES }
    ensures { (result.0 ≡ lower_of shape variable) × (result.1 ≡ upper_of shape variable) }
{
    (
        source_step::value_of(&shape.lower, shape.variables, variable as u16),
        source_step::value_of(&shape.upper, shape.variables, variable as u16),
    )
}

// Of a stroke, falling or rising, an amount.
pub fn signed_by(falls: bool, x: i64) -> i64
    requires { InRange source_limits x }
    ensures { result ≡ signed falls x }
{
    if falls { x } else { -x }
}

// One addition of a stroke: to this variable this amount, or its opposite where the stroke rises.
fn push_amount(
    marks: &mut [u16; MARKS],
    numbers: &mut [i64; NUMBERS],
    falls: bool,
    variable: u8,
    amount: i64,
)
    requires { PartsFit 0 0 0 1 marks.old × (length numbers.old ≡ NUMBERS) × InRange source_limits amount }
    ensures { Says (with_addition (row_is marks.old numbers.old) (variable, signed falls amount))
        marks.new numbers.new }
{
    let change = signed_by(falls, amount);
    file_parts::push_addition(marks, numbers, variable, change);
}

// What a stroke adds.
fn push_added(marks: &mut [u16; MARKS], numbers: &mut [i64; NUMBERS], falls: bool, s: Stage)
    requires { PartsFit 0 0 0 s.added marks.old × (length numbers.old ≡ NUMBERS) × Small s }
    ensures { Says (with_additions (row_is marks.old numbers.old) (added_is falls s)) marks.new numbers.new }
{
    let count = s.added;
    if count < 1 {
        return;
    }
    push_amount(marks, numbers, falls, s.variables[0], s.amounts[0]);
    if count < 2 {
        return;
    }
    push_amount(marks, numbers, falls, s.variables[1], s.amounts[1]);
    if count < 3 {
        return;
    }
    push_amount(marks, numbers, falls, s.variables[2], s.amounts[2]);
    if count < 4 {
        return;
    }
    push_amount(marks, numbers, falls, s.variables[3], s.amounts[3]);
}

// Falling or rising, of the stage with a number.
pub fn push_stroke(
    marks: &mut [u16; MARKS],
    numbers: &mut [i64; NUMBERS],
    s: Stage,
    falls: bool,
    control: u8,
    number: u16,
)
    requires { (length marks.old ≡ MARKS) × (length numbers.old ≡ NUMBERS) × Small s }
    ensures { Says (stroke_is falls control number s) marks.new numbers.new }
{
    file_parts::blank(marks);
    file_parts::push_mode_condition(marks, control, number);
    let (relation, reach) = if falls {
        (AT_LEAST, s.unit)
    } else {
        (AT_MOST, -1)
    };
    file_parts::push_condition(marks, numbers, s.counter, relation, reach - s.deep);
    push_added(marks, numbers, falls, s);
}

// What the turn asks of a target.
fn push_bounds(marks: &mut [u16; MARKS], numbers: &mut [i64; NUMBERS], s: Stage)
    requires { PartsFit 2 0 0 0 marks.old × (length numbers.old ≡ NUMBERS) }
    ensures { Says (with_conditions (row_is marks.old numbers.old) (asked_is s)) marks.new numbers.new }
{
    if s.bounded {
        file_parts::push_condition(marks, numbers, s.target, AT_LEAST, s.lower);
        file_parts::push_condition(marks, numbers, s.target, AT_MOST, s.upper);
    }
}

// What the turn adds to A.
fn push_given(marks: &mut [u16; MARKS], numbers: &mut [i64; NUMBERS], a: u8, x: i64)
    requires { PartsFit 0 0 0 1 marks.old × (length numbers.old ≡ NUMBERS) }
    ensures { Says (with_additions (row_is marks.old numbers.old) (given_is a x)) marks.new numbers.new }
{
    if x == 0 {
        return;
    }
    file_parts::push_addition(marks, numbers, a, x);
}

// The turn, which sets control to the next.
pub fn push_turn(
    marks: &mut [u16; MARKS],
    numbers: &mut [i64; NUMBERS],
    s: Stage,
    a: u8,
    control: u8,
    number: u16,
    next: u16,
)
    requires { (length marks.old ≡ MARKS) × (length numbers.old ≡ NUMBERS) × Small s }
    ensures { Says (turn_is a control number next s) marks.new numbers.new }
{
    file_parts::blank(marks);
    file_parts::push_mode_condition(marks, control, number);
    file_parts::push_condition(marks, numbers, s.counter, AT_LEAST, 0 - s.deep);
    file_parts::push_condition(marks, numbers, s.counter, AT_MOST, s.unit - s.deep - 1);
    push_bounds(marks, numbers, s);
    file_parts::push_mode_effect(marks, control, next);
    push_given(marks, numbers, a, s.gives);
}

// The bound more that a + of c on a target with these bounds needs.
fn push_bound(
    marks: &mut [u16; MARKS],
    numbers: &mut [i64; NUMBERS],
    t: u8,
    c: i64,
    lower: i64,
    upper: i64,
)
    requires { PartsFit 1 0 0 0 marks.old × (length numbers.old ≡ NUMBERS) × BoundsSmall lower upper × InRange source_limits c }
    ensures { Says (with_condition (row_is marks.old numbers.old) (bound_is t c lower upper))
        marks.new numbers.new }
{
    if 0 < c {
        file_parts::push_condition(marks, numbers, t, AT_MOST, upper - c);
        return;
    }
    file_parts::push_condition(marks, numbers, t, AT_LEAST, lower - c);
}

// What the opening or single action of a single effect needs and adds besides.
fn push_single(
    marks: &mut [u16; MARKS],
    numbers: &mut [i64; NUMBERS],
    place: NumericEffect,
    shape: Shape,
    a: u8,
)
    requires { PartsFit 1 0 0 1 marks.old × (length numbers.old ≡ NUMBERS) × Bounded shape × EffectOk source_limits a (numeric_is place) }
    ensures { Says (with_numeric a (lower_of shape) (upper_of shape) (numeric_is place ∷ []) (row_is marks.old numbers.old))
        marks.new numbers.new }
{
    match place.effect {
        Effect::None => {}
        Effect::Add(t, c) => {
            let (lower, upper) = bounds_of(shape, t);
            push_bound(marks, numbers, t, c, lower, upper);
            file_parts::push_addition(marks, numbers, t, c);
        }
        Effect::Linear(_, w) => push_given(marks, numbers, a, w),
        Effect::Quotient(_, _, _) | Effect::Residue(_, _, _) => {}
    }
}

// What the opening or single action of an action with these effects needs and adds besides.
fn push_numeric(
    marks: &mut [u16; MARKS],
    numbers: &mut [i64; NUMBERS],
    effects: Effects,
    shape: Shape,
    a: u8,
)
    requires { PartsFit 1 0 0 1 marks.old × (length numbers.old ≡ NUMBERS) × Bounded shape × PlacesOk a effects }
    ensures { Says (with_numeric a (lower_of shape) (upper_of shape) (effects_is effects) (row_is marks.old numbers.old))
        marks.new numbers.new }
{
    let count = effects.count;
    if count == 0 {
        return;
    }
    let first = effects.places[0];
    if count == 1 {
        push_single(marks, numbers, first, shape, a);
        return;
    }
    let amount = entering_amount(first);
    push_given(marks, numbers, a, amount);
}

// To the parts of a source action what its opening or single action has besides; `next` is its first stage, 0 where it has none.
pub fn push_opening(
    marks: &mut [u16; MARKS],
    numbers: &mut [i64; NUMBERS],
    effects: Effects,
    shape: Shape,
    a: u8,
    control: u8,
    next: u16,
)
    requires { PartsFit 1 1 1 1 marks.old × (length numbers.old ≡ NUMBERS) × Bounded shape × PlacesOk a effects }
    ensures { Says (with_opening a control next (lower_of shape) (upper_of shape) (effects_is effects) (row_is marks.old numbers.old))
        marks.new numbers.new }
{
    file_parts::push_mode_condition(marks, control, 0);
    push_numeric(marks, numbers, effects, shape, a);
    if next == 0 {
        return;
    }
    file_parts::push_mode_effect(marks, control, next);
}
