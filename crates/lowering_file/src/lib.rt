// The lowering: from a source file the restricted file, written into lent output.
//
// A file that is refused has no lowered task. The writers run on output of length 0 first, where they only count, so that a refusal leaves the
// output as it was; the actions come first there, since they say how large control is, whether there are holds, and where the sums of the goal begin.
#![tactic(auto)]

ghost use Rattle.std.specs.Prelude.{◌≡◌, true, cond, ◌+◌, ◌<◌, ◌≤◌, length, take, replicate, pos};
ghost use mathlib.Core.List.{[], ◌∷◌, ◌++◌, flat_map};
ghost use Rattle.integers.specs.All.{All};
ghost use Rattle.lists.specs.Writing.{Room, Wrote};
ghost use Rattle.answers.specs.Lent.{Lent};
ghost use Rattle.commands.specs.Table.{letter_g};
ghost use Rattle.commands.specs.Encoding.{encode};
ghost use Rattle.commands.specs.declared.Command.TheVariants.{End};
ghost use Rattle.model.specs.Limits.{source_limits};
ghost use Rattle.model.specs.Reading.{verdict_of};
ghost use Rattle.model.specs.Decoding.{sum_conditions_of};
ghost use Rattle.model.specs.ActionBytes.{action_part, decode_action};
ghost use Rattle.model.specs.Stages.{several, hold_count};
ghost use Rattle.model.specs.FourRelations.{in_four};
ghost use Rattle.model.specs.Sums.{sums_of_source, sum_values};
ghost use Rattle.model.specs.Judging.{lower_bytes};
ghost use Rattle.source_step.specs.Sizes.{VARIABLES, MODES, ACTIONS};
ghost use Rattle.source_step.specs.Row.{ValuesNear, WeightsSmall};
ghost use Rattle.source_step.specs.Accepted.{AcceptedWith};
ghost use Rattle.source_sums.specs.Found.{task_of, PlacesOf};
ghost use Rattle.file_parts.specs.Layout.{MARKS, NUMBERS};
ghost use Rattle.file_parts.specs.Row.{row_is, PartsFit};
ghost use Rattle.file_parts.specs.With.{with_mode_condition};
ghost use Rattle.file_actions.specs.Views.{sum_room, effects_is, plain_action_of, SourceDecoded, fitting_source};
ghost use Rattle.lowering_stages.specs.Stages.{PlacesFew};
ghost use Rattle.lowering_sums.specs.Views.{sums_in, start_bytes, Fits};
ghost use Rattle.lowering_rows.specs.Bytes.{row_bytes, WroteRows};
ghost use Rattle.lowering_file.specs.Parts.{mode_bytes, modes_in, holds_of, starts_in, GoalWritable};
ghost use Rattle.lowering_file.specs.Held.{Held, kept_is, KeptOf, OwnPushed, Declares, GoalFrom, GoalOf, Told};
ghost use Rattle.lowering_file.specs.Held.{actions_part, in_file_order, actions_first, Acted};

use answers::{Reason, Refusal};
use file_actions::Effects;
use file_parts::{MARKS, NUMBERS};
use lowering_rows::Kept;
use lowering_stages::Shape;
use source_step::{MODES, NUMBERS as WEIGHTS, VARIABLES};
use source_sums::PLACES;

// What a file declares, by value.
#[derive(Clone, Copy)]
struct Declarations {
    shape: Shape,
    starts: [i64; VARIABLES],
    values: [u16; MODES],
}

// Where the actions of an accepted file with so many begin, and behind them its goal.
fn find_places(file: &[u8], count: usize) -> [usize; PLACES]
    requires { AcceptedWith (verdict_of source_limits file.now) count }
    ensures { PlacesOf file.now count result }
{
    let mut places = [0usize; PLACES];
    file_actions::action_places(file, &mut places);
    places
}

// Action k of a file with so many actions, which begin at these places: its parts into lent rows, and its effects.
fn decode_action(
    file: &[u8],
    places: &[usize; PLACES],
    count: usize,
    k: usize,
    marks: &mut [u16; MARKS],
    numbers: &mut [i64; NUMBERS],
) -> Effects
    requires places_of { PlacesOf file.now count places.now × (k < count) × (count ≤ ACTIONS) }
    requires marks_len { (length marks.old ≡ MARKS) × (length numbers.old ≡ NUMBERS) }
    ensures { SourceDecoded (fitting_source (plain_action_of (decode_action (action_part file.now k))))
        marks.new numbers.new result }
{
    let start = places[k];
    let next = k + 1;
    let end = places[next];
    file_actions::decode_source(file_actions::part(file, start, end), marks, numbers)
}

// To the rows of action k, in a task with so many K's in all, its own as C on the kept variables from `variable` on. How many they are.
fn push_own(
    file: &[u8],
    places: &[usize; PLACES],
    count: usize,
    k: usize,
    sums: usize,
    variable: u8,
    marks: &mut [u16; MARKS],
    numbers: &mut [i64; NUMBERS],
) -> u8
    requires places_of { PlacesOf file.now count places.now × (k < count) × (count ≤ ACTIONS) }
    requires k_value { sums ≡ 0 → sum_conditions_of (decode_action (action_part file.now k)) ≡ [] }
    requires parts_fit { PartsFit sum_room 0 0 0 marks.old × (length numbers.old ≡ NUMBERS) × («variable» + sum_room ≤ 255) }
    ensures { OwnPushed (sum_conditions_of (decode_action (action_part file.now k))) «variable»
        (row_is marks.old numbers.old) marks.new numbers.new result }
{
    if sums == 0 {
        return 0;
    }
    let own = source_sums::action_sums(file, places, count, k);
    lowering_sums::push_sums(marks, numbers, variable, own);
    own.count as u8
}

// Where a writer stands; what the declarations take from the actions: the size of control, 1 and the count of all stages, and whether some
// action has several effects; and what the goal takes: the number of the variable kept for its first sum.
#[derive(Clone, Copy)]
struct Put {
    place: usize,
    control: u16,
    several: bool,
    goal_sum: u8,
}

// Whether some action has several effects, this one being the next.
fn some_several(before: bool, effects: Effects) -> bool
    requires { PlacesFew effects }
    ensures { result ≡ cond before true (several (effects_is effects)) }
{
    before || 1 < effects.count
}

// Whether some action of an accepted file with so many has several effects.
fn any_several(file: &[u8], places: &[usize; PLACES], count: usize) -> bool
    requires { AcceptedWith (verdict_of source_limits file.now) count × PlacesOf file.now count places.now }
    ensures { holds_of result ≡ hold_count (task_of file.now).actions }
{
    let mut marks = [0u16; MARKS];
    let mut numbers = [0i64; NUMBERS];
    let mut several = false;
    for k in 0..count {
        let effects = decode_action(file, places, count, k, &mut marks, &mut numbers);
        several = some_several(several, effects);
    }
    several
}

// How many variables R has behind the declared ones besides those that it keeps: A and B, and three holds where some action has several effects.
fn helper_count(several: bool) -> usize
    ensures { result ≡ 2 + holds_of several }
{
    if several { 5 } else { 2 }
}

// The number of the first kept variable in a task with n variables and so many sums: behind A, B and the holds. Where there is no sum the holds
// are not looked for.
fn first_kept(file: &[u8], places: &[usize; PLACES], count: usize, n: usize, sums: usize) -> u8
    requires { AcceptedWith (verdict_of source_limits file.now) count × PlacesOf file.now count places.now × (n ≤ VARIABLES) }
    ensures { (result ≤ VARIABLES + 5) × (0 < sums → result ≡ n + (2 + hold_count (task_of file.now).actions)) }
{
    if sums == 0 {
        return 0;
    }
    let several = any_several(file, places, count);
    (n + helper_count(several)) as u8
}

// What all actions become, so many, through two lent rows.
fn put_actions(
    out: &mut [u8],
    at: usize,
    file: &[u8],
    places: &[usize; PLACES],
    actions: usize,
    shape: Shape,
    kept: Kept,
    marks: &mut [u16; MARKS],
    numbers: &mut [i64; NUMBERS],
) -> Put
    requires accepted_with { AcceptedWith (verdict_of source_limits file.now) actions × Held file.now actions shape × PlacesOf file.now actions places.now }
    requires marks_len { (length marks.old ≡ MARKS) × (length numbers.old ≡ NUMBERS) × KeptOf file.now (kept_is kept) }
    requires room { Room out.old at (actions_part file.now) }
    ensures { Acted file.now kept.entry.first out.old at (actions_part file.now) out.new result
        marks.new numbers.new }
{
    let mut place = at;
    let mut from: u16 = 1;
    let mut several = false;
    let mut sum = kept.first;
    for k in 0..actions {
        let effects = decode_action(file, places, actions, k, marks, numbers);
        let own = push_own(file, places, actions, k, kept.sums, sum, marks, numbers);
        place = lowering_rows::put_macro(out, place, marks, numbers, effects, shape, from, kept);
        from += lowering_stages::stage_count(effects) as u16;
        sum += own;
        several = some_several(several, effects);
    }
    Put {
        place,
        control: from,
        several,
        goal_sum: sum,
    }
}

// What an accepted file with so many actions declares.
fn read_declarations(file: &[u8], count: usize) -> Declarations
    requires { AcceptedWith (verdict_of source_limits file.now) count }
    ensures { Declares file.now count result }
{
    let mut lower = [0i64; VARIABLES];
    let mut upper = [0i64; VARIABLES];
    let mut starts = [0i64; VARIABLES];
    let mut sizes = [0u16; MODES];
    let mut values = [0u16; MODES];
    let declared = file_declarations::read_source(
        file,
        &mut lower,
        &mut upper,
        &mut starts,
        &mut sizes,
        &mut values,
    );
    let shape = Shape {
        variables: declared.variables,
        lower,
        upper,
        modes: declared.modes,
        sizes,
    };
    Declarations {
        shape,
        starts,
        values,
    }
}

// The goal of an accepted file with so many actions, at the place behind theirs, as an action: its parts into lent rows, its K's, in a task with
// so many in all, as C on the kept variables from `variable` on.
fn read_goal(
    file: &[u8],
    places: &[usize; PLACES],
    count: usize,
    sums: usize,
    variable: u8,
    marks: &mut [u16; MARKS],
    numbers: &mut [i64; NUMBERS],
)
    requires accepted_with { AcceptedWith (verdict_of source_limits file.now) count × PlacesOf file.now count places.now }
    requires sums_value { (sums ≡ length (sums_of_source (task_of file.now))) × GoalFrom file.now sums variable }
    requires marks_len { (length marks.old ≡ MARKS) × (length numbers.old ≡ NUMBERS) }
    ensures { GoalOf file.now marks.new numbers.new }
{
    let place = places[count];
    file_actions::decode_source(file_actions::goal_from(file, place), marks, numbers);
    if sums == 0 {
        return;
    }
    let own = source_sums::goal_sums(file, place);
    lowering_sums::push_sums(marks, numbers, variable, own);
}

// The U of the first n of an array.
fn put_declared_starts(out: &mut [u8], at: usize, n: usize, starts: &[i64; VARIABLES]) -> usize
    requires n_bound { (n ≤ VARIABLES) × (length starts.now ≡ VARIABLES) }
    requires values_near { ValuesNear n starts.now }
    requires room { Room out.old at (flat_map start_bytes (take n starts.now)) }
    ensures { Wrote out.old at (flat_map start_bytes (take n starts.now)) out.new result }
{
    let mut place = at;
    for start in &starts[..n] {
        let bits = integers::bits(*start);
        place = commands::put_start(out, place, bits);
    }
    place
}

// The U of so many variables that start at 0.
fn put_zeros(out: &mut [u8], at: usize, n: usize) -> usize
    requires { Room out.old at (flat_map start_bytes (replicate n (pos 0))) }
    ensures { Wrote out.old at (flat_map start_bytes (replicate n (pos 0))) out.new result }
{
    let mut place = at;
    for _ in 0..n {
        place = commands::put_start(out, place, 0);
    }
    place
}

// All U: those of n declared variables, those of A, B and the holds, and those of the kept variables.
fn put_starts(
    out: &mut [u8],
    at: usize,
    n: usize,
    starts: &[i64; VARIABLES],
    several: bool,
    sums: usize,
    weights: &[i64; WEIGHTS],
) -> usize
    requires n_bound { (n ≤ VARIABLES) × (length starts.now ≡ VARIABLES) }
    requires values_near { ValuesNear n starts.now × (sums ≤ sum_room) × WeightsSmall weights.now }
    requires all { All Fits (sum_values (sums_in sums weights.now) (take n starts.now)) }
    requires room { Room out.old at (flat_map start_bytes (starts_in n starts.now several (sums_in sums weights.now))) }
    ensures { Wrote out.old at (flat_map start_bytes (starts_in n starts.now several (sums_in sums weights.now)))
        out.new result }
{
    let helpers = put_declared_starts(out, at, n, starts);
    let count = helper_count(several);
    let kept = put_zeros(out, helpers, count);
    lowering_sums::put_sum_starts(out, kept, n, starts, sums, weights)
}

// The M of the first n of two arrays.
fn put_declared_modes<'a>(
    out: &mut [u8],
    at: usize,
    n: usize,
    sizes: &'a [u16; MODES],
    values: &'a [u16; MODES],
) -> usize
    requires n_bound { n ≤ MODES }
    requires room { Room out.old at (flat_map mode_bytes (modes_in n sizes.now values.now)) }
    ensures { Wrote out.old at (flat_map mode_bytes (modes_in n sizes.now values.now)) out.new result }
{
    let mut place = at;
    for i in 0..n {
        place = commands::put_mode(out, place, sizes[i], values[i]);
    }
    place
}

// All M: those of n declared modes, then that of control, which starts at 0.
fn put_modes<'a>(
    out: &mut [u8],
    at: usize,
    n: usize,
    sizes: &'a [u16; MODES],
    values: &'a [u16; MODES],
    control: u16,
) -> usize
    requires n_bound { n ≤ MODES }
    requires room { Room out.old at (flat_map mode_bytes (modes_in n sizes.now values.now ++ ((control, 0) ∷ []))) }
    ensures { Wrote out.old at (flat_map mode_bytes (modes_in n sizes.now values.now ++ ((control, 0) ∷ [])))
        out.new result }
{
    let last = put_declared_modes(out, at, n, sizes, values);
    commands::put_mode(out, last, control, 0)
}

// The goal, which stands in two lent rows, control at 0 with it, and the end of the file.
fn put_goal(
    out: &mut [u8],
    at: usize,
    marks: &mut [u16; MARKS],
    numbers: &[i64; NUMBERS],
    control: u8,
) -> usize
    requires goal_writable { GoalWritable marks.old numbers.now }
    requires room { Room out.old at (row_bytes letter_g (in_four (with_mode_condition (row_is marks.old numbers.now) (control, 0))) ++ encode End) }
    ensures { WroteRows out.old at
        (row_bytes letter_g (in_four (with_mode_condition (row_is marks.old numbers.now) (control, 0))) ++ encode End)
        out.new result marks.new numbers.now }
{
    file_parts::push_mode_condition(marks, control, 0);
    let end = lowering_rows::put_row(out, at, commands::GOAL_BYTE, marks, numbers);
    commands::put_end(out, end)
}

// All parts of the lowered task's file, the actions first: on output of length 0 they are counted.
fn count_task(
    out: &mut [u8],
    file: &[u8],
    places: &[usize; PLACES],
    count: usize,
    declared: Declarations,
    kept: Kept,
    marks: &mut [u16; MARKS],
    numbers: &mut [i64; NUMBERS],
) -> Put
    requires accepted_with { AcceptedWith (verdict_of source_limits file.now) count × Declares file.now count declared × PlacesOf file.now count places.now }
    requires marks_len { (length marks.old ≡ MARKS) × (length numbers.old ≡ NUMBERS) × KeptOf file.now (kept_is kept) }
    requires room { Room out.old 0 (actions_first file.now) }
    ensures { Acted file.now kept.entry.first out.old 0 (actions_first file.now) out.new result
        marks.new numbers.new }
{
    let shape = declared.shape;
    let starts = declared.starts;
    let values = declared.values;
    let sizes = shape.sizes;
    let acted = put_actions(out, 0, file, places, count, shape, kept, marks, numbers);
    let control = acted.control;
    let several = acted.several;
    let goal_sum = acted.goal_sum;
    let modes = put_starts(
        out,
        acted.place,
        shape.variables,
        &starts,
        several,
        kept.sums,
        kept.weights,
    );
    let goal = put_modes(out, modes, shape.modes, &sizes, &values, control);
    read_goal(file, places, count, kept.sums, goal_sum, marks, numbers);
    let place = put_goal(out, goal, marks, numbers, shape.modes as u8);
    Put {
        place,
        control,
        several,
        goal_sum,
    }
}

// The lowered task's file, from the front of output that has room for it, with what the declarations take from the actions.
fn put_task(
    out: &mut [u8],
    file: &[u8],
    places: &[usize; PLACES],
    count: usize,
    declared: Declarations,
    kept: Kept,
    marks: &mut [u16; MARKS],
    numbers: &mut [i64; NUMBERS],
    control: u16,
    several: bool,
) -> usize
    requires accepted_with { AcceptedWith (verdict_of source_limits file.now) count × Declares file.now count declared × PlacesOf file.now count places.now }
    requires marks_len { (length marks.old ≡ MARKS) × (length numbers.old ≡ NUMBERS) × Told file.now control several × KeptOf file.now (kept_is kept) }
    requires room { Room out.old 0 (in_file_order file.now) }
    ensures { Wrote out.old 0 (in_file_order file.now) out.new result }
{
    let shape = declared.shape;
    let starts = declared.starts;
    let values = declared.values;
    let sizes = shape.sizes;
    let modes = put_starts(
        out,
        0,
        shape.variables,
        &starts,
        several,
        kept.sums,
        kept.weights,
    );
    let behind = put_modes(out, modes, shape.modes, &sizes, &values, control);
    let acted = put_actions(
        out, behind, file, places, count, shape, kept, marks, numbers,
    );
    read_goal(
        file,
        places,
        count,
        kept.sums,
        acted.goal_sum,
        marks,
        numbers,
    );
    put_goal(out, acted.place, marks, numbers, shape.modes as u8)
}

// The lowered task of an accepted file with so many actions.
fn lower_accepted(file: &[u8], count: usize, out: &mut [u8]) -> Result<usize, Refusal>
    requires { AcceptedWith (verdict_of source_limits file.now) count }
    ensures { Lent out.old (lower_bytes file.now) out.new result }
{
    let declared = read_declarations(file, count);
    let places = find_places(file, count);
    let mut weights = [0i64; WEIGHTS];
    let sums = source_sums::find_sums(file, &places, count, &mut weights);
    let shape = declared.shape;
    let first = first_kept(file, &places, count, shape.variables, sums);
    let kept = Kept {
        first,
        sums,
        weights: &weights,
    };
    let mut marks = [0u16; MARKS];
    let mut numbers = [0i64; NUMBERS];
    let counted = count_task(
        &mut out[..0],
        file,
        &places,
        count,
        declared,
        kept,
        &mut marks,
        &mut numbers,
    );
    let need = counted.place;
    let control = counted.control;
    let several = counted.several;
    if out.len() < need {
        return Err(Reason::OutputShort.at(need as u64));
    }
    put_task(
        out,
        file,
        &places,
        count,
        declared,
        kept,
        &mut marks,
        &mut numbers,
        control,
        several,
    );
    Ok(need)
}

// The lowered task's file, written into lent output.
pub fn lower(file: &[u8], out: &mut [u8]) -> Result<usize, Refusal>
    ensures { Lent out.old (lower_bytes file.now) out.new result }
{
    let accepted = file_check::check_source(file)?;
    lower_accepted(file, accepted.actions as usize, out)
}
