// The listing of a plan: a header, a line for each step, and the goal with the total price; where the file or the plan is refused, one line
// that names the refusal.
//
// It is written into output that a caller lends: whole by `list`, or part by part. `begin` judges the plan, and `put_part` writes the next part
// of what is left, into as many bytes as hold every part, and sums up what its steps cost. The functions that write store nothing into output
// of length 0 and only count there. `list` counts so where the output lent may be too short: it writes nothing where the text does not fit.
#![tactic(auto)]

ghost use Rattle.std.specs.Prelude.{◌≡◌, ◌+◌, ◌-◌, ◌*◌, ◌^◌, ◌≤◌, ◌<◌, false, ltb, length, take, replicate, pos};
ghost use mathlib.Core.List.{flat_map};
ghost use Rattle.answers.specs.Answer.{given};
ghost use Rattle.lists.specs.Writing.{Room, Wrote};
ghost use Rattle.answers.specs.Lent.{Lent};
ghost use Rattle.model.specs.Listing.{fields_of, goal_line, refused_line, listing};
ghost use Rattle.model.specs.Plans.{plan_numbers};
ghost use Rattle.source_step.specs.Step.{state};
ghost use Rattle.source_step.specs.Ready.{blank_marks, blank_numbers};
ghost use Rattle.source_step.specs.Table.{table, Usables};
ghost use Rattle.source_step.specs.Sizes.{VARIABLES, MODES};
ghost use Rattle.source_walk.specs.Opening.{table_of};
ghost use Rattle.source_walk.specs.Walk.{judge_by};
ghost use Rattle.listing.specs.Lines.{field, line_of, LINE, RoomFor};
ghost use Rattle.listing.specs.Listed.{Listable, LinedTo, lines_to};
ghost use Rattle.listing.specs.Parts.{PART, most_of, needed_of, lines_left, rest_by, Pending, Begun, header_at, part_end, part_of, PutPart};
ghost use Rattle.listing.specs.Parts.{NextPart};

use answers::{Reason, Refusal};
use plan_strokes::STAGES;
use source_step::{MARKS, MODES, NUMBERS, ROWS, SUMS_ROW, VARIABLES};

// The most lines of a plan: it has no more steps.
const MOST_LINES: usize = 1_000_000;

// A space, and a whole number.
fn put_field(out: &mut [u8], at: usize, z: i64) -> usize
    requires { Room out.old at (field z) }
    ensures { Wrote out.old at (field z) out.new result }
{
    let behind = lists::put_number(out, at, 32, 1);
    listing_text::put_integer(out, behind, z)
}

// A space, and a number that is not negative.
fn put_count(out: &mut [u8], at: usize, n: u64) -> usize
    requires { Room out.old at (field (pos n)) }
    ensures { Wrote out.old at (field (pos n)) out.new result }
{
    let behind = lists::put_number(out, at, 32, 1);
    listing_text::put_natural(out, behind, n)
}

// The first n values, a space before each: at most 21 bytes a value.
fn put_values(out: &mut [u8], at: usize, values: &[i64; VARIABLES], n: usize) -> usize
    requires { (n ≤ VARIABLES) × (length values.now ≡ VARIABLES) × RoomFor out.old at (21 * n) (flat_map field (take n values.now)) }
    ensures { Wrote out.old at (flat_map field (take n values.now)) out.new result × (result ≤ at + 21 * n) }
{
    let mut place = at;
    for z in &values[..n] {
        place = put_field(out, place, *z);
    }
    place
}

// The first n values and the line's end.
fn put_fields(out: &mut [u8], at: usize, values: &[i64; VARIABLES], n: usize) -> usize
    requires { (n ≤ VARIABLES) × (length values.now ≡ VARIABLES) × RoomFor out.old at (21 * n + 1) (fields_of (take n values.now)) }
    ensures { Wrote out.old at (fields_of (take n values.now)) out.new result × (result ≤ at + (21 * n + 1)) }
{
    let end = put_values(out, at, values, n);
    lists::put_number(out, end, 10, 1)
}

// The line of step i, which took action k at a price and left the first n values.
fn put_step_line(
    out: &mut [u8],
    at: usize,
    i: u64,
    k: u64,
    price: u64,
    values: &[i64; VARIABLES],
    n: usize,
) -> usize
    requires { (n ≤ VARIABLES) × (length values.now ≡ VARIABLES) × RoomFor out.old at LINE (line_of i k price (take n values.now)) }
    ensures { Wrote out.old at (line_of i k price (take n values.now)) out.new result × (result ≤ at + LINE) }
{
    let action_at = listing_text::put_natural(out, at, i);
    let price_at = put_count(out, action_at, k);
    let values_at = put_count(out, price_at, price);
    put_fields(out, values_at, values, n)
}

// The last line: at most 26 bytes.
fn put_goal_line(out: &mut [u8], at: usize, total: u64) -> usize
    requires { RoomFor out.old at 26 (goal_line total) }
    ensures { Wrote out.old at (goal_line total) out.new result × (result ≤ at + 26) }
{
    let total_at = lists::put_bytes(out, at, b"goal");
    let end = put_count(out, total_at, total);
    lists::put_number(out, end, 10, 1)
}

// The one line of a refusal: at most 50 bytes.
fn put_refused_line(out: &mut [u8], at: usize, number: u8, place: u64) -> usize
    requires { RoomFor out.old at 50 (refused_line number place) }
    ensures { Wrote out.old at (refused_line number place) out.new result × (result ≤ at + 50) }
{
    let number_at = lists::put_bytes(out, at, b"refused");
    let place_at = put_count(out, number_at, number as u64);
    let end = put_count(out, place_at, place);
    lists::put_number(out, end, 10, 1)
}

// Where a walk over a plan stands: the place behind the lines written, the price of the steps so far, and the step that comes next.
#[derive(Drop)]
struct Lined {
    place: usize,
    spent: u64,
    next: usize,
}

// The lines of the steps from one on and until another, from a lent state on; their prices are added to that of the steps before.
fn put_lines(
    out: &mut [u8],
    at: usize,
    plan: &[u8],
    from: usize,
    until: usize,
    before: u64,
    count: usize,
    marks: &[[u16; MARKS]],
    numbers: &[[i64; NUMBERS]],
    n: usize,
    m: usize,
    values: &mut [i64; VARIABLES],
    modes: &mut [u16; MODES],
) -> Lined
    requires listable { Listable (table count marks.now numbers.now n m) (plan_numbers plan.now) from until before values.old modes.old }
    requires room_for { RoomFor out.old at (LINE * (until - from)) (lines_to (table count marks.now numbers.now n m) from until
        (plan_numbers plan.now) (state values.old modes.old)) }
    ensures { LinedTo (table count marks.now numbers.now n m) (plan_numbers plan.now) from until before
        values.old modes.old out.old at out.new result values.new modes.new }
{
    let mut times = [0i64; STAGES];
    let mut place = at;
    let mut spent = before;
    for i in from..until {
        let k = plan_bytes::action_of(plan, i) as usize;
        if count <= k {
            return Lined {
                place,
                spent,
                next: plan.len() / 2,
            };
        }
        let price = match plan_strokes::take_priced(
            values,
            modes,
            n,
            m,
            &marks[k],
            &numbers[k],
            &numbers[SUMS_ROW],
            &mut times,
        ) {
            Ok(price) => price,
            Err(_) => {
                return Lined {
                    place,
                    spent,
                    next: plan.len() / 2,
                };
            }
        };
        place = put_step_line(out, place, i as u64, k as u64, price, values, n);
        spent += price;
    }
    Lined {
        place,
        spent,
        next: until,
    }
}

// What is left of the listing of a valid plan: what was opened, the price of the steps whose lines are written, and the step whose line comes
// next. The header is left where that is the first.
#[derive(Clone, Copy)]
pub struct Sheet {
    pub task: source_walk::Task,
    pub spent: u64,
    pub next: usize,
}

// What is left of a listing: the line of a refusal, by its number and its place, the lines of a plan, or nothing.
#[derive(Clone, Copy)]
pub enum Rest {
    Refusal(u8, u64),
    Lines(Sheet),
    Nothing,
}

// Whether anything is left.
pub fn any_left(rest: Rest) -> bool
    ensures { result ≡ ltb 0 (lines_left rest) }
{
    match rest {
        Rest::Nothing => false,
        Rest::Refusal(_, _) => true,
        Rest::Lines(_) => true,
    }
}

// Judges a plan from a state on, without prices: what its listing is.
fn judge(
    plan: &[u8],
    task: source_walk::Task,
    marks: &[[u16; MARKS]],
    numbers: &[[i64; NUMBERS]],
    values: &[i64; VARIABLES],
    modes: &[u16; MODES],
) -> Rest
    requires { Usables (table_of task marks.now numbers.now) × (task.steps ≡ length (plan_numbers plan.now)) × (task.steps ≤ 1000000)
        × (length modes.now ≡ MODES) }
    ensures { result ≡ rest_by task (judge_by (table_of task marks.now numbers.now) false (plan_numbers plan.now)
        (state values.now modes.now)).verdict }
{
    let mut last_values = *values;
    let mut last_modes = *modes;
    let judged = source_walk::judge_steps(
        plan,
        task.steps,
        task.actions,
        marks,
        numbers,
        task.variables,
        task.modes,
        false,
        &mut last_values,
        &mut last_modes,
    );
    match judged.verdict {
        Err(refusal) => Rest::Refusal(refusal.reason.number(), refusal.place),
        Ok(_) => Rest::Lines(Sheet {
            task,
            spent: 0,
            next: 0,
        }),
    }
}

// Opens a file and a plan into arrays of zeros, and judges the plan: all of its listing is left.
pub fn begin(
    file: &[u8],
    plan: &[u8],
    marks: &mut [[u16; MARKS]],
    numbers: &mut [[i64; NUMBERS]],
    values: &mut [i64; VARIABLES],
    modes: &mut [u16; MODES],
) -> Rest
    requires { (marks.old ≡ blank_marks) × (numbers.old ≡ blank_numbers) × (values.old ≡ replicate VARIABLES (pos 0)) × (modes.old ≡ replicate MODES 0) }
    ensures { Begun file.now plan.now result marks.new numbers.new values.new modes.new }
{
    match source_walk::open(file, plan, marks, numbers, values, modes) {
        Err(refusal) => Rest::Refusal(refusal.reason.number(), refusal.place),
        Ok(t) => judge(plan, t, marks, numbers, values, modes),
    }
}

// A part of a listing that was written: how many bytes it has, and what is left behind it.
#[derive(Drop)]
pub struct Part {
    pub count: usize,
    pub rest: Rest,
}

// The header where the first line comes next.
fn put_header(out: &mut [u8], next: usize) -> usize
    requires { Room out.old 0 (header_at next) }
    ensures { Wrote out.old 0 (header_at next) out.new result }
{
    if 0 < next {
        return 0;
    }
    lists::put_bytes(out, 0, b"step action cost values\n")
}

// The step up to which at most so many lines go from one on.
fn part_end(next: usize, most: usize, steps: usize) -> usize
    requires { next ≤ steps }
    ensures { result ≡ part_end next most steps }
{
    next + most.min(steps - next)
}

// At most so many lines of a plan, at the front of the output, with the header before the first of all and the goal's line behind the last.
fn put_sheet(
    out: &mut [u8],
    plan: &[u8],
    sheet: Sheet,
    most: usize,
    marks: &[[u16; MARKS]],
    numbers: &[[i64; NUMBERS]],
    values: &mut [i64; VARIABLES],
    modes: &mut [u16; MODES],
) -> Part
    requires most_nonzero { (0 < most) × Pending (Rest.Lines sheet) (plan_numbers plan.now) marks.now numbers.now values.old modes.old }
    requires room_for { RoomFor out.old 0 (50 + LINE * most)
        (part_of (Rest.Lines sheet) most (plan_numbers plan.now) marks.now numbers.now values.old modes.old) }
    ensures { PutPart (Rest.Lines sheet) most (plan_numbers plan.now) marks.now numbers.now
        values.old modes.old out.old out.new result values.new modes.new }
{
    let task = sheet.task;
    let next = sheet.next;
    let until = part_end(next, most, task.steps);
    let lines_at = put_header(out, next);
    let lined = put_lines(
        out,
        lines_at,
        plan,
        next,
        until,
        sheet.spent,
        task.actions,
        marks,
        numbers,
        task.variables,
        task.modes,
        values,
        modes,
    );
    if until < task.steps {
        return Part {
            count: lined.place,
            rest: Rest::Lines(Sheet {
                task,
                spent: lined.spent,
                next: lined.next,
            }),
        };
    }
    Part {
        count: put_goal_line(out, lined.place, lined.spent),
        rest: Rest::Nothing,
    }
}

// What is left of a listing, with at most so many lines of a plan, at the front of the output.
fn put_rest(
    out: &mut [u8],
    plan: &[u8],
    rest: Rest,
    most: usize,
    marks: &[[u16; MARKS]],
    numbers: &[[i64; NUMBERS]],
    values: &mut [i64; VARIABLES],
    modes: &mut [u16; MODES],
) -> Part
    requires most_nonzero { (0 < most) × Pending rest (plan_numbers plan.now) marks.now numbers.now values.old modes.old }
    requires room_for { RoomFor out.old 0 (50 + LINE * most) (part_of rest most (plan_numbers plan.now) marks.now numbers.now values.old modes.old) }
    ensures { PutPart rest most (plan_numbers plan.now) marks.now numbers.now
        values.old modes.old out.old out.new result values.new modes.new }
{
    match rest {
        Rest::Nothing => Part {
            count: 0,
            rest: Rest::Nothing,
        },
        Rest::Refusal(number, place) => Part {
            count: put_refused_line(out, 0, number, place),
            rest: Rest::Nothing,
        },
        Rest::Lines(sheet) => put_sheet(out, plan, sheet, most, marks, numbers, values, modes),
    }
}

// The most lines of a plan in a part, and bytes that hold every part: 231 for each of those, and 50 for the header and the goal's line.
const PART_LINES: usize = 128;

pub const PART: usize = 29618;

// The next part of what is left of a listing, at the front of the output: its bytes, and behind them what is left then, from the state that
// the last of its steps leaves on. Where anything is left, fewer lines are left behind it.
pub fn put_part(
    out: &mut [u8],
    plan: &[u8],
    rest: Rest,
    marks: &[[u16; MARKS]],
    numbers: &[[i64; NUMBERS]],
    values: &mut [i64; VARIABLES],
    modes: &mut [u16; MODES],
) -> Part
    requires { (PART ≤ length out.old) × Pending rest (plan_numbers plan.now) marks.now numbers.now values.old modes.old }
    ensures { NextPart rest (plan_numbers plan.now) marks.now numbers.now
        values.old modes.old out.new result values.new modes.new }
{
    put_rest(out, plan, rest, PART_LINES, marks, numbers, values, modes)
}

// The most bytes of a step's line in a listing, and of the header and the goal's line, or of a refusal's.
const LONGEST: usize = 73;

const ENDS: usize = 42;

// The most bytes of a listing of so many steps.
fn most_of(rest: Rest) -> usize
    requires { most_of rest < 2 ^ 64 }
    ensures { result ≡ most_of rest }
{
    match rest {
        Rest::Nothing => ENDS,
        Rest::Refusal(_, _) => ENDS,
        Rest::Lines(sheet) => ENDS + LONGEST * sheet.task.steps,
    }
}

// How many bytes must be lent for what is left: its length, counted; 0 where the room holds any listing of so many steps.
fn needed(
    room: usize,
    plan: &[u8],
    rest: Rest,
    marks: &[[u16; MARKS]],
    numbers: &[[i64; NUMBERS]],
    values: &[i64; VARIABLES],
    modes: &[u16; MODES],
) -> usize
    requires { Pending rest (plan_numbers plan.now) marks.now numbers.now values.now modes.now }
    ensures { result ≡ needed_of room rest (length (part_of rest 1000000 (plan_numbers plan.now)
        marks.now numbers.now values.now modes.now)) }
{
    if most_of(rest) <= room {
        return 0;
    }
    let mut nothing: [u8; 0] = [];
    let mut last_values = *values;
    let mut last_modes = *modes;
    let counted = put_rest(
        &mut nothing,
        plan,
        rest,
        MOST_LINES,
        marks,
        numbers,
        &mut last_values,
        &mut last_modes,
    );
    counted.count
}

// The whole listing of a task and a plan, a refusal's line included. The only refusal is 8: the output lent is shorter than the text, whose
// length is counted first where that may be.
pub fn list(file: &[u8], plan: &[u8], out: &mut [u8]) -> Result<usize, Refusal>
    ensures { Lent out.old (given (listing file.now plan.now)) out.new result }
{
    let mut marks = [[0u16; MARKS]; ROWS];
    let mut numbers = [[0i64; NUMBERS]; ROWS];
    let mut values = [0i64; VARIABLES];
    let mut modes = [0u16; MODES];
    let rest = begin(
        file,
        plan,
        &mut marks,
        &mut numbers,
        &mut values,
        &mut modes,
    );
    let need = needed(out.len(), plan, rest, &marks, &numbers, &values, &modes);
    if out.len() < need {
        return Err(Reason::OutputShort.at(need as u64));
    }
    let part = put_rest(
        out,
        plan,
        rest,
        MOST_LINES,
        &marks,
        &numbers,
        &mut values,
        &mut modes,
    );
    Ok(part.count)
}
