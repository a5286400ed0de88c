// Parts rows as bytes of a restricted file, and what a source action becomes, row by row, written into lent output.
//
// It never looks whether there is room (its caller shows that there is) and never refuses.
#![tactic(auto)]

ghost use Rattle.std.specs.Prelude.{◌≡◌, ◌≤◌, ◌<◌, cond, eqb, length, nat_abs};
ghost use mathlib.Core.List.{map, flat_map};
ghost use Rattle.integers.specs.All.{All};
ghost use Rattle.lists.specs.Writing.{Room, Wrote};
ghost use Rattle.commands.specs.Table.{letter_a};
ghost use Rattle.model.specs.FourRelations.{in_four};
ghost use Rattle.model.specs.Sums.{addition, kept_additions};
ghost use Rattle.file_parts.specs.Layout.{MARKS, NUMBERS};
ghost use Rattle.file_parts.specs.Row.{additions_in, row_is, PartsFit};
ghost use Rattle.file_parts.specs.With.{condition};
ghost use Rattle.file_actions.specs.Views.{effects_is};
ghost use Rattle.lowering_stages.specs.Stages.{given_is, added_is as stroke_added, Small, PlacesOk, most_stages, stage_numbers};
ghost use Rattle.lowering_stages.specs.Shapes.{Bounded};
ghost use Rattle.lowering_sums.specs.Views.{most_added, added_is, AddedSmall};
ghost use Rattle.lowering_rows.specs.Bytes.{condition_bytes, four_bytes, mode_part_bytes, addition_bytes, restricted_action_bytes, with_kept};
ghost use Rattle.lowering_rows.specs.Bytes.{sums_kept, places_of, mode_parts_in, row_bytes, Writable, stage_rows, WroteRows};
ghost use Rattle.lowering_rows.specs.Macros.{Constant, Amount, Fit, AllFit, opening_in, kept_stages, stages_bytes, stages_in, macro_with};
ghost use Rattle.lowering_rows.specs.Macros.{Keeps, OneAddition, Lowerable};

use file_actions::Effects;
use file_parts::{
    ADDITION_AMOUNT, ADDITION_COUNT, ADDITION_VARIABLE, CONDITION_COUNT, CONDITION_RELATION,
    CONDITION_VARIABLE, MARKS, MODE_CONDITION_COUNT, MODE_CONDITION_MODE, MODE_CONDITION_VALUE,
    MODE_EFFECT_COUNT, MODE_EFFECT_MODE, MODE_EFFECT_VALUE, NUMBERS,
};
use lowering_stages::{AT_LEAST, AT_MOST, Shape, Stage};
use lowering_sums::Added;
use source_step::NUMBERS as WEIGHTS;

// The relation that a restricted file does not have: equal.
const EQUAL: u16 = 4;

// What R keeps of the sums of a task: the number of the variable that it keeps for the first, how many they are, and their weights.
#[derive(Clone, Copy)]
pub struct Kept<'a> {
    pub first: u8,
    pub sums: usize,
    pub weights: &'a [i64; WEIGHTS],
}

// The parts of a row that name a mode: its P and its E.
#[derive(Clone, Copy)]
enum ModePart {
    Condition,
    Effect,
}

// A P, or an E.
fn put_mode_part(out: &mut [u8], at: usize, part: ModePart, mode: u8, value: u16) -> usize
    requires { Room out.old at (mode_part_bytes part (mode, value)) }
    ensures { Wrote out.old at (mode_part_bytes part (mode, value)) out.new result }
{
    match part {
        ModePart::Condition => commands::put_mode_condition(out, at, mode, value),
        ModePart::Effect => commands::put_mode_effect(out, at, mode, value),
    }
}

// Where the P or the E of a row stand in its marks: their count, the first mode and the first value.
fn places_of(part: ModePart) -> (usize, usize, usize)
    ensures { result ≡ places_of part }
{
    match part {
        ModePart::Condition => (
            MODE_CONDITION_COUNT,
            MODE_CONDITION_MODE,
            MODE_CONDITION_VALUE,
        ),
        ModePart::Effect => (MODE_EFFECT_COUNT, MODE_EFFECT_MODE, MODE_EFFECT_VALUE),
    }
}

// The P of a row, or its E.
fn put_mode_parts(out: &mut [u8], at: usize, marks: &[u16; MARKS], part: ModePart) -> usize
    requires fit { PartsFit 0 0 0 0 marks.now }
    requires room { Room out.old at (flat_map (mode_part_bytes part) (mode_parts_in part marks.now)) }
    ensures { Wrote out.old at (flat_map (mode_part_bytes part) (mode_parts_in part marks.now)) out.new result }
{
    let (counted, modes, values) = places_of(part);
    let mut place = at;
    for i in 0..marks[counted] as usize {
        let mode = (marks[modes + i] % 256) as u8;
        place = put_mode_part(out, place, part, mode, marks[values + i]);
    }
    place
}

// A C of a row, in the four relations of a restricted file: equal is ≥, then ≤.
fn put_condition(out: &mut [u8], at: usize, variable: u8, relation: u16, constant: i64) -> usize
    requires constant { Constant (condition variable relation constant) }
    requires room { Room out.old at (four_bytes (condition variable relation constant)) }
    ensures { Wrote out.old at (four_bytes (condition variable relation constant)) out.new result }
{
    let bits = integers::bits(constant);
    if relation < EQUAL {
        return commands::put_condition(out, at, variable, relation as u8, bits);
    }
    let behind = commands::put_condition(out, at, variable, AT_LEAST, bits);
    commands::put_condition(out, behind, variable, AT_MOST, bits)
}

// The C of a row.
fn put_conditions(
    out: &mut [u8],
    at: usize,
    marks: &[u16; MARKS],
    numbers: &[i64; NUMBERS],
) -> usize
    requires writable { Writable marks.now numbers.now }
    requires room { Room out.old at (flat_map condition_bytes (in_four (row_is marks.now numbers.now)).conditions) }
    ensures { Wrote out.old at (flat_map condition_bytes (in_four (row_is marks.now numbers.now)).conditions)
        out.new result }
{
    let mut place = at;
    for i in 0..marks[CONDITION_COUNT] as usize {
        let variable = (marks[CONDITION_VARIABLE + i] % 256) as u8;
        place = put_condition(
            out,
            place,
            variable,
            marks[CONDITION_RELATION + i],
            numbers[i],
        );
    }
    place
}

// The + of a row.
fn put_additions(out: &mut [u8], at: usize, marks: &[u16; MARKS], numbers: &[i64; NUMBERS]) -> usize
    requires writable { Writable marks.now numbers.now }
    requires room { Room out.old at (flat_map addition_bytes (row_is marks.now numbers.now).additions) }
    ensures { Wrote out.old at (flat_map addition_bytes (row_is marks.now numbers.now).additions) out.new result }
{
    let mut place = at;
    for i in 0..marks[ADDITION_COUNT] as usize {
        let variable = (marks[ADDITION_VARIABLE + i] % 256) as u8;
        let bits = integers::bits(numbers[ADDITION_AMOUNT + i]);
        place = commands::put_add(out, place, variable, bits);
    }
    place
}

// A row, an action or a goal by its first byte, in the four relations of a restricted file.
pub fn put_row(
    out: &mut [u8],
    at: usize,
    byte: u8,
    marks: &[u16; MARKS],
    numbers: &[i64; NUMBERS],
) -> usize
    requires writable { Writable marks.now numbers.now }
    requires room { Room out.old at (row_bytes byte (in_four (row_is marks.now numbers.now))) }
    ensures { Wrote out.old at (row_bytes byte (in_four (row_is marks.now numbers.now))) out.new result }
{
    let modes = lists::put_number(out, at, byte as u32, 1);
    let conditions = put_mode_parts(out, modes, marks, ModePart::Condition);
    let effects = put_conditions(out, conditions, marks, numbers);
    let additions = put_mode_parts(out, effects, marks, ModePart::Effect);
    put_additions(out, additions, marks, numbers)
}

// A + of so much on a variable; nothing where it is 0.
fn put_addition(out: &mut [u8], at: usize, variable: u8, d: i64) -> usize
    requires d_bound { nat_abs d < 2147483648 }
    requires room { Room out.old at (flat_map addition_bytes (addition variable d)) }
    ensures { Wrote out.old at (flat_map addition_bytes (addition variable d)) out.new result }
{
    if d == 0 {
        return at;
    }
    let bits = integers::bits(d);
    commands::put_add(out, at, variable, bits)
}

// The + on the kept variables that go with some + of an action, behind its bytes.
fn follow(out: &mut [u8], at: usize, added: Added, kept: Kept) -> usize
    requires keeps { Keeps kept.first kept.sums kept.weights.now × AddedSmall added × All Amount (kept_additions kept.first (sums_kept kept) (added_is added)) }
    requires room { Room out.old at (flat_map addition_bytes (kept_additions kept.first (sums_kept kept) (added_is added))) }
    ensures { Wrote out.old at (flat_map addition_bytes (kept_additions kept.entry.first (sums_kept kept.entry) (added_is added)))
        out.new result }
{
    let mut place = at;
    for j in 0..kept.sums {
        let d = lowering_sums::kept_amount(kept.weights, j, added);
        let variable = kept.first + j as u8;
        place = put_addition(out, place, variable, d);
    }
    place
}

// What a stroke of a stage adds.
fn added_by(s: Stage, falls: bool) -> Added
    requires { Small s }
    ensures { (added_is result ≡ stroke_added falls s) × AddedSmall result }
{
    let variables = s.variables;
    let first = lowering_stages::signed_by(falls, s.amounts[0]);
    let second = lowering_stages::signed_by(falls, s.amounts[1]);
    let third = lowering_stages::signed_by(falls, s.amounts[2]);
    let fourth = lowering_stages::signed_by(falls, s.amounts[3]);
    Added {
        count: s.added,
        variables,
        amounts: [first, second, third, fourth],
    }
}

// A + of so much on a variable, and where it is 0 none.
fn added_once(variable: u8, d: i64) -> Added
    requires { nat_abs d ≤ most_added }
    ensures { (added_is result ≡ given_is variable d) × AddedSmall result }
{
    Added {
        count: if d == 0 { 0 } else { 1 },
        variables: [variable, 0, 0, 0],
        amounts: [d, 0, 0, 0],
    }
}

// What a row adds that has one + at most.
fn added_in(marks: &[u16; MARKS], numbers: &[i64; NUMBERS]) -> Added
    requires { OneAddition marks.now numbers.now }
    ensures { (added_is result ≡ additions_in marks.now numbers.now) × AddedSmall result }
{
    let variable = (marks[ADDITION_VARIABLE] % 256) as u8;
    let d = numbers[ADDITION_AMOUNT];
    Added {
        count: marks[ADDITION_COUNT] as usize,
        variables: [variable, 0, 0, 0],
        amounts: [d, 0, 0, 0],
    }
}

// The three actions of a stage with a number, through two lent rows.
fn put_stage(
    out: &mut [u8],
    at: usize,
    marks: &mut [u16; MARKS],
    numbers: &mut [i64; NUMBERS],
    s: Stage,
    a: u8,
    control: u8,
    number: u16,
    next: u16,
    kept: Kept,
) -> usize
    requires marks_len { (length marks.old ≡ MARKS) × (length numbers.old ≡ NUMBERS) × Small s × Keeps kept.first kept.sums kept.weights.now }
    requires all_fit { AllFit (map (with_kept kept.first (sums_kept kept)) (stage_rows a control number next s)) }
    requires room { Room out.old at (flat_map (row_bytes letter_a) (map (with_kept kept.first (sums_kept kept)) (stage_rows a control number next s))) }
    ensures { WroteRows out.old at
        (flat_map (row_bytes letter_a) (map (with_kept kept.entry.first (sums_kept kept.entry)) (stage_rows a control number next s)))
        out.new result marks.new numbers.new }
{
    lowering_stages::push_stroke(marks, numbers, s, true, control, number);
    let fallen = put_row(out, at, commands::ACTION_BYTE, marks, numbers);
    let second = follow(out, fallen, added_by(s, true), kept);
    lowering_stages::push_stroke(marks, numbers, s, false, control, number);
    let risen = put_row(out, second, commands::ACTION_BYTE, marks, numbers);
    let third = follow(out, risen, added_by(s, false), kept);
    lowering_stages::push_turn(marks, numbers, s, a, control, number, next);
    let turned = put_row(out, third, commands::ACTION_BYTE, marks, numbers);
    follow(out, turned, added_once(a, s.gives), kept)
}

// The stages, so many, of an action with these effects; they are numbered from `from`. Its rows are its own and not lent, so that they need not
// stay in memory.
fn put_stages(
    out: &mut [u8],
    at: usize,
    effects: Effects,
    shape: Shape,
    count: usize,
    from: u16,
    kept: Kept,
) -> usize
    requires bounded { Bounded shape × PlacesOk shape.variables effects × Keeps kept.first kept.sums kept.weights.now }
    requires count_value { (count ≡ length (stages_in shape effects)) × (count ≤ most_stages) × (0 < from) × (from ≤ stage_numbers) }
    requires all_fit { AllFit (kept_stages kept.first (sums_kept kept) shape.variables shape.modes from (stages_in shape effects)) }
    requires room { Room out.old at (stages_bytes kept.first (sums_kept kept) shape.variables shape.modes from (stages_in shape effects)) }
    ensures { Wrote out.old at
        (stages_bytes kept.entry.first (sums_kept kept.entry) shape.variables shape.modes from (stages_in shape effects))
        out.new result }
{
    let a = shape.variables as u8;
    let control = shape.modes as u8;
    let mut marks = [0u16; MARKS];
    let mut numbers = [0i64; NUMBERS];
    let mut place = at;
    let mut number = from;
    for j in 0..count {
        let stage = lowering_stages::stage_at(effects, shape, a, j);
        let next = lowering_stages::next_stage(number, count - (j + 1));
        place = put_stage(
            out,
            place,
            &mut marks,
            &mut numbers,
            stage,
            a,
            control,
            number,
            next,
            kept,
        );
        number += 1;
    }
    place
}

// Control on entering so many stages that are numbered from `from`: 0 where there is none.
fn first_stage(from: u16, count: usize) -> u16
    ensures { result ≡ cond (eqb count 0) 0 from }
{
    if count == 0 {
        return 0;
    }
    from
}

// The opening or single action, from rows that have the C, P and E of the source action, its K's as C on kept variables.
fn put_opening(
    out: &mut [u8],
    at: usize,
    marks: &mut [u16; MARKS],
    numbers: &mut [i64; NUMBERS],
    effects: Effects,
    shape: Shape,
    next: u16,
    kept: Kept,
) -> usize
    requires lowerable { Lowerable shape marks.old numbers.old effects × Keeps kept.first kept.sums kept.weights.now }
    requires fit { Fit (with_kept kept.first (sums_kept kept) (opening_in shape next (effects_is effects) (row_is marks.old numbers.old))) }
    requires room { Room out.old at (row_bytes letter_a (in_four (with_kept kept.first (sums_kept kept)
        (opening_in shape next (effects_is effects) (row_is marks.old numbers.old))))) }
    ensures { WroteRows out.old at (row_bytes letter_a (in_four (with_kept kept.entry.first (sums_kept kept.entry)
        (opening_in shape next (effects_is effects) (row_is marks.old numbers.old)))))
        out.new result marks.new numbers.new }
{
    let a = shape.variables as u8;
    let control = shape.modes as u8;
    lowering_stages::push_opening(marks, numbers, effects, shape, a, control, next);
    let behind = put_row(out, at, commands::ACTION_BYTE, marks, numbers);
    follow(out, behind, added_in(marks, numbers), kept)
}

// What a source action becomes whose C, P and E, its K's as C on kept variables, stand in two lent rows, its stages being numbered from `from`.
// The rows are written over.
pub fn put_macro(
    out: &mut [u8],
    at: usize,
    marks: &mut [u16; MARKS],
    numbers: &mut [i64; NUMBERS],
    effects: Effects,
    shape: Shape,
    from: u16,
    kept: Kept,
) -> usize
    requires lowerable { Lowerable shape marks.old numbers.old effects × Keeps kept.first kept.sums kept.weights.now × (0 < from) × (from ≤ stage_numbers)
        × AllFit (macro_with kept.first (sums_kept kept) shape from (effects_is effects) (row_is marks.old numbers.old)) }
    requires room { Room out.old at (flat_map restricted_action_bytes
        (macro_with kept.first (sums_kept kept) shape from (effects_is effects) (row_is marks.old numbers.old))) }
    ensures { WroteRows out.old at (flat_map restricted_action_bytes
        (macro_with kept.entry.first (sums_kept kept.entry) shape from (effects_is effects) (row_is marks.old numbers.old)))
        out.new result marks.new numbers.new }
{
    let count = lowering_stages::stage_count(effects);
    let next = first_stage(from, count);
    let place = put_opening(out, at, marks, numbers, effects, shape, next, kept);
    put_stages(out, place, effects, shape, count, from, kept)
}
