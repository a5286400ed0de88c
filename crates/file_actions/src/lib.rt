// The actions of a task file: where they stand, their bytes as a part of the file, and what the bytes of one action or of the goal say, as
// a parts row. Every function takes any bytes; of an accepted file, what is decoded is the task's own (proofs/Accepted).
// It applies no action and knows no state.
#![tactic(auto)]

ghost use Rattle.std.specs.Prelude.{◌≡◌, Bool, true, List, ◌<◌, ◌≤◌, length, get_or, ℤ};
ghost use Rattle.lists.specs.Writing.{splice};
ghost use Rattle.commands.specs.Table.{letter_c, letter_p, letter_e, plus_sign};
ghost use Rattle.commands.specs.Reading.{command_at};
ghost use Rattle.model.specs.Rules.{constant};
ghost use Rattle.model.specs.Decoding.{sum_conditions_of, restricted_action_of};
ghost use Rattle.model.specs.ActionBytes.{edge_of, of_verdict, action_place, decode_action};
ghost use Rattle.model.specs.Limits.{source_limits, restricted_limits};
ghost use Rattle.file_parts.specs.Layout.{MARKS, NUMBERS};
ghost use Rattle.file_parts.specs.Row.{PartsFit, Says};
ghost use Rattle.file_check.specs.Views.{verdict_is};
ghost use Rattle.file_actions.specs.Places.{edges_of, Found, body_start, part_of, placed_is, bytes_told, told_is, at_step, goal_from, goal_part};
ghost use Rattle.file_actions.specs.Numeric.{no_terms, with_term, TermsRead, no_effect, no_effects, with_terms, EffectGiven, sum_condition, no_sums, with_sum};
ghost use Rattle.file_actions.specs.Taking.{parts_of, Takes};
ghost use Rattle.file_actions.specs.Views.{plain_action_of, SourceDecoded, SumsDecoded, fitting_source, fitting_restricted};

use answers::{Reason, Refusal};
use commands::Command;
use file_check::Accepted;
use file_parts::{
    ADDITION_COUNT, ADDITIONS, CONDITION_COUNT, CONDITIONS, MARKS, MODE_CONDITION_COUNT,
    MODE_CONDITIONS, MODE_EFFECT_COUNT, MODE_EFFECTS, NUMBERS,
};
use std::ops::Range;

// Room for the numeric effects of a source action, for the K of one or of the goal, and for the T of each of either.
pub const EFFECTS: usize = 3;

pub const SUMS: usize = 4;

pub const TERMS: usize = 4;

// A T: a variable and its weight.
#[derive(Clone, Copy)]
pub struct Term {
    pub variable: u8,
    pub weight: i64,
}

// A numeric effect of a source action: + (target, c), L (target, w0, its terms standing beside it), Q and R (target, operand, c). None fills the
// places past the last.
#[derive(Clone, Copy)]
pub enum Effect {
    None,
    Add(u8, i64),
    Linear(u8, i64),
    Quotient(u8, u8, i64),
    Residue(u8, u8, i64),
}

// An effect with its terms: the first `term_count` of them count where the effect is linear.
#[derive(Clone, Copy)]
pub struct NumericEffect {
    pub effect: Effect,
    pub term_count: usize,
    pub terms: [Term; TERMS],
}

// The numeric effects of a source action: the first `count` places, in the order of the file. Its C, P and E stand beside them, as a parts row that
// has no +, and its K as sum conditions.
#[derive(Clone, Copy)]
pub struct Effects {
    pub count: usize,
    pub places: [NumericEffect; EFFECTS],
}

// A K: a condition on the sum of its terms, of which the first `term_count` count.
#[derive(Clone, Copy)]
pub struct SumCondition {
    pub relation: u8,
    pub constant: i64,
    pub term_count: usize,
    pub terms: [Term; TERMS],
}

// The K of a source action or goal: the first `count` places, in the order of the file.
#[derive(Clone, Copy)]
pub struct SumConditions {
    pub count: usize,
    pub places: [SumCondition; SUMS],
}

// From an offset on, the offset of the one of the commands A and, last, G before which so many of them stand; the file's length where there
// are not so many. It is the one that `Sought` speaks of, and from there the next is number 1.
fn edge_from(file: &[u8], from: usize, number: usize) -> usize
    ensures { Found file.now from number result }
{
    let mut at = from;
    let mut left = number;
    while at < file.len() {
        let byte = file[at];
        match byte {
            b'A' => {
                if left == 0 {
                    return at;
                }
                left -= 1;
            }
            b'G' => {
                if left == 0 {
                    return at;
                }
                break;
            }
            _ => {}
        }
        at += commands::size_of(byte);
    }
    file.len()
}

// The offset of the k-th of the commands A and, last, G; the file's length where there are not so many.
fn find_edge(file: &[u8], k: usize) -> usize
    ensures { result ≡ edge_of file.now k }
{
    edge_from(file, 0, k)
}

// The offsets of all A's and last of G, stored one behind another from the front of the table as far as they fit.
pub fn action_places(file: &[u8], places: &mut [usize])
    ensures { places.new ≡ splice places.old 0 (edges_of file.now) }
{
    let mut at: usize = 0;
    let mut n: usize = 0;
    while at < file.len() {
        if n == places.len() {
            return;
        }
        let byte = file[at];
        match byte {
            b'A' => {
                places[n] = at;
                n += 1;
            }
            b'G' => {
                places[n] = at;
                break;
            }
            _ => {}
        }
        at += commands::size_of(byte);
    }
}

// Where action k of a file stands that was checked, from its A up to the next A or G.
fn place_action(
    file: &[u8],
    checked: Result<Accepted, Refusal>,
    k: usize,
) -> Result<Range<usize>, Refusal>
    ensures { placed_is result ≡ of_verdict (verdict_is checked) file.now k }
{
    let accepted = checked?;
    if accepted.actions as usize <= k {
        return Err(Reason::NoAction.at(k as u64));
    }
    let start = edge_from(file, 0, k);
    let end = edge_from(file, start, 1);
    Ok(start..end)
}

// The place of action k of a source file: the file's own refusal first, then that of an action which isn't there, at place k.
pub fn place_source_action(file: &[u8], k: usize) -> Result<Range<usize>, Refusal>
    ensures { placed_is result ≡ action_place source_limits file.now k }
{
    place_action(file, file_check::check_source(file), k)
}

// The same of a restricted file.
pub fn place_restricted_action(file: &[u8], k: usize) -> Result<Range<usize>, Refusal>
    ensures { placed_is result ≡ action_place restricted_limits file.now k }
{
    place_action(file, file_check::check_restricted(file), k)
}

// The part of a file from a start up to an end, as far as the file goes.
pub fn part(file: &[u8], start: usize, end: usize) -> &[u8]
    ensures { result.now ≡ part_of file.now start end }
{
    let end = end.min(file.len());
    if end <= start {
        return &file[..0];
    }
    &file[start..end]
}

// The bytes of an action, as a part of the caller's file, and the place where they begin.
#[derive(Clone, Copy)]
pub struct ActionBytes<'a> {
    pub place: usize,
    pub bytes: &'a [u8],
}

// The part of a file where an action stands.
fn bytes_at<'a>(
    file: &'a [u8],
    placed: Result<Range<usize>, Refusal>,
) -> Result<ActionBytes<'a>, Refusal>
    ensures { told_is result ≡ bytes_told (placed_is placed) file.now }
{
    let place = placed?;
    Ok(ActionBytes {
        place: place.start,
        bytes: part(file, place.start, place.end),
    })
}

// The bytes of action k of a source file, from its A up to the next A or G.
pub fn source_action_bytes<'a>(file: &'a [u8], k: usize) -> Result<ActionBytes<'a>, Refusal>
    ensures { told_is result ≡ bytes_told (action_place source_limits file.now k) file.now }
{
    bytes_at(file, place_source_action(file, k))
}

// The same of a restricted file.
pub fn restricted_action_bytes<'a>(file: &'a [u8], k: usize) -> Result<ActionBytes<'a>, Refusal>
    ensures { told_is result ≡ bytes_told (action_place restricted_limits file.now k) file.now }
{
    bytes_at(file, place_restricted_action(file, k))
}

// A refusal where a step by itself asks for its action: it is step 0, so that of an action which isn't there has place 0; a file's keep theirs.
pub fn at_step(refusal: Refusal) -> Refusal
    ensures { result ≡ at_step refusal }
{
    match refusal.reason {
        Reason::NoAction => Reason::NoAction.at(0),
        _ => refusal,
    }
}

// The bytes of the goal of an accepted file, from its G, which stands at this place, up to its Z.
pub fn goal_from(file: &[u8], place: usize) -> &[u8]
    ensures { result.now ≡ goal_from file.now place }
{
    part(file, place, file.len().saturating_sub(1))
}

// The bytes of the goal of an accepted file that has so many actions.
pub fn goal_bytes(file: &[u8], actions: usize) -> &[u8]
    ensures { result.now ≡ goal_part file.now actions }
{
    goal_from(file, find_edge(file, actions))
}

// A C at the front of what remains, pushed behind the others where there is room. A C that is cut short is not taken.
fn take_condition(rest: &[u8], marks: &mut [u16; MARKS], numbers: &mut [i64; NUMBERS])
    requires { (0 < length rest.now) × (get_or rest.now 0 0 ≡ letter_c) × PartsFit 0 0 0 0 marks.old }
    ensures { (restricted : Bool) → Takes restricted (command_at rest.now)
        marks.old numbers.old marks.new numbers.new }
{
    let Command::Condition(variable, relation, bits) = commands::read_condition(rest) else {
        return;
    };
    let constant = integers::signed(bits);
    if (marks[CONDITION_COUNT] as usize) < CONDITIONS {
        file_parts::push_condition(marks, numbers, variable, relation, constant);
    }
}

// Likewise a P.
fn take_mode_condition(rest: &[u8], marks: &mut [u16; MARKS])
    requires { (0 < length rest.now) × (get_or rest.now 0 0 ≡ letter_p) × PartsFit 0 0 0 0 marks.old }
    ensures { (restricted : Bool) (numbers : List ℤ) → Takes restricted (command_at rest.now)
        marks.old numbers marks.new numbers }
{
    let Command::ModeCondition(mode, value) = commands::read_mode_condition(rest) else {
        return;
    };
    if (marks[MODE_CONDITION_COUNT] as usize) < MODE_CONDITIONS {
        file_parts::push_mode_condition(marks, mode, value);
    }
}

// Likewise an E.
fn take_mode_effect(rest: &[u8], marks: &mut [u16; MARKS])
    requires { (0 < length rest.now) × (get_or rest.now 0 0 ≡ letter_e) × PartsFit 0 0 0 0 marks.old }
    ensures { (restricted : Bool) (numbers : List ℤ) → Takes restricted (command_at rest.now)
        marks.old numbers marks.new numbers }
{
    let Command::ModeEffect(mode, value) = commands::read_mode_effect(rest) else {
        return;
    };
    if (marks[MODE_EFFECT_COUNT] as usize) < MODE_EFFECTS {
        file_parts::push_mode_effect(marks, mode, value);
    }
}

// Likewise a + of a restricted action.
fn take_addition(rest: &[u8], marks: &mut [u16; MARKS], numbers: &mut [i64; NUMBERS])
    requires { (0 < length rest.now) × (get_or rest.now 0 0 ≡ plus_sign) × PartsFit 0 0 0 0 marks.old }
    ensures { Takes true (command_at rest.now) marks.old numbers.old marks.new numbers.new }
{
    let Command::Add(variable, bits) = commands::read_add(rest) else {
        return;
    };
    let amount = integers::signed(bits);
    if (marks[ADDITION_COUNT] as usize) < ADDITIONS {
        file_parts::push_addition(marks, numbers, variable, amount);
    }
}

// The offset behind the first command of an action's or goal's bytes, which is its A or G.
fn body_start(bytes: &[u8]) -> usize
    ensures { (result ≡ body_start bytes.now) × (result ≤ 13) }
{
    if bytes.len() == 0 {
        return 0;
    }
    commands::size_of(bytes[0])
}

// The C, P and E of an action or goal, and the + of a restricted action, taken one by one up to the next A or G into rows that are blanked first.
fn gather_parts(
    bytes: &[u8],
    restricted: bool,
    marks: &mut [u16; MARKS],
    numbers: &mut [i64; NUMBERS],
)
    ensures { Says (fitting_restricted (parts_of restricted (decode_action bytes.now))) marks.new numbers.new }
{
    file_parts::blank(marks);
    let mut at = body_start(bytes);
    while at < bytes.len() {
        let rest = &bytes[at..];
        let byte = rest[0];
        at += commands::size_of(byte);
        match byte {
            b'C' => take_condition(rest, marks, numbers),
            b'P' => take_mode_condition(rest, marks),
            b'E' => take_mode_effect(rest, marks),
            b'+' => {
                if restricted {
                    take_addition(rest, marks, numbers);
                }
            }
            b'A' | b'G' => break,
            _ => {}
        }
    }
}

// The T of an L or a K: the first `count` places.
#[derive(Clone, Copy)]
struct Terms {
    count: usize,
    places: [Term; TERMS],
}

fn no_terms() -> Terms
    ensures { result ≡ no_terms }
{
    let term = Term {
        variable: 0,
        weight: 0,
    };
    Terms {
        count: 0,
        places: [term; TERMS],
    }
}

// A term behind the others, where there is room.
fn with_term(mut terms: Terms, variable: u8, bits: u32) -> Terms
    ensures { result ≡ with_term terms variable (constant bits) }
{
    let weight = integers::signed(bits);
    if terms.count < TERMS {
        terms.places[terms.count] = Term { variable, weight };
        terms.count += 1;
    }
    terms
}

// The T that stand from an offset on, up to the first command of another kind.
fn terms_at(bytes: &[u8], from: usize) -> Terms
    ensures { TermsRead bytes.now from result }
{
    let mut terms = no_terms();
    let mut at = from;
    while at < bytes.len() {
        let rest = &bytes[at..];
        at += commands::size_of(rest[0]);
        let Command::Term(variable, bits) = commands::read(rest) else {
            return terms;
        };
        terms = with_term(terms, variable, bits);
    }
    terms
}

// An effect with the terms that were read for it.
fn with_terms(effect: Effect, read: Terms) -> NumericEffect
    ensures { result ≡ with_terms effect read }
{
    let terms = read.places;
    NumericEffect {
        effect,
        term_count: read.count,
        terms,
    }
}

// A place that holds no effect.
fn no_effect() -> NumericEffect
    ensures { result ≡ no_effect }
{
    with_terms(Effect::None, no_terms())
}

fn no_effects() -> Effects
    ensures { result ≡ no_effects }
{
    Effects {
        count: 0,
        places: [no_effect(); EFFECTS],
    }
}

// The effect that a command gives, if any; the T of an L are those that stand from an offset on.
fn effect_given(command: Command, bytes: &[u8], behind: usize) -> Option<NumericEffect>
    ensures { EffectGiven bytes.now behind command result }
{
    match command {
        Command::Add(target, bits) => Some(with_terms(
            Effect::Add(target, integers::signed(bits)),
            no_terms(),
        )),
        Command::Linear(target, bits) => Some(with_terms(
            Effect::Linear(target, integers::signed(bits)),
            terms_at(bytes, behind),
        )),
        Command::Quotient(target, operand, bits) => Some(with_terms(
            Effect::Quotient(target, operand, integers::signed(bits)),
            no_terms(),
        )),
        Command::Residue(target, operand, bits) => Some(with_terms(
            Effect::Residue(target, operand, integers::signed(bits)),
            no_terms(),
        )),
        _ => None,
    }
}

// The restricted action, or the goal of a restricted file, whose bytes these are, in rows that the caller lends and that may hold anything. Of
// more commands than there is room for, which no accepted file has, the first are taken.
pub fn decode_restricted(bytes: &[u8], marks: &mut [u16; MARKS], numbers: &mut [i64; NUMBERS])
    requires { (length marks.old ≡ MARKS) × (length numbers.old ≡ NUMBERS) }
    ensures { Says (fitting_restricted (restricted_action_of (decode_action bytes.now))) marks.new numbers.new }
{
    gather_parts(bytes, true, marks, numbers);
}

// The source action, or the goal of a source file, whose bytes these are, but for its K: its C, P and E in rows that the caller lends and that
// may hold anything, its effects by value, taken one by one up to the next A or G. Of more commands than there is room for, which no accepted
// file has, the first are taken.
pub fn decode_source(
    bytes: &[u8],
    marks: &mut [u16; MARKS],
    numbers: &mut [i64; NUMBERS],
) -> Effects
    requires { (length marks.old ≡ MARKS) × (length numbers.old ≡ NUMBERS) }
    ensures { SourceDecoded (fitting_source (plain_action_of (decode_action bytes.now)))
        marks.new numbers.new result }
{
    gather_parts(bytes, false, marks, numbers);
    let mut effects = no_effects();
    let mut at = body_start(bytes);
    while at < bytes.len() {
        let rest = &bytes[at..];
        let byte = rest[0];
        at += commands::size_of(byte);
        match byte {
            b'C' | b'K' | b'P' | b'E' | b'T' => {}
            b'A' | b'G' => break,
            _ => {
                if let Some(place) = effect_given(commands::read(rest), bytes, at) {
                    let count = effects.count;
                    if count < EFFECTS {
                        effects.places[count] = place;
                        effects.count = count + 1;
                    }
                }
            }
        }
    }
    effects
}

// A K with the terms that were read for it.
fn sum_condition(relation: u8, constant: i64, read: Terms) -> SumCondition
    ensures { result ≡ sum_condition relation constant read }
{
    let terms = read.places;
    SumCondition {
        relation,
        constant,
        term_count: read.count,
        terms,
    }
}

fn no_sums() -> SumConditions
    ensures { result ≡ no_sums }
{
    SumConditions {
        count: 0,
        places: [sum_condition(0, 0, no_terms()); SUMS],
    }
}

// A K behind the others, where there is room.
fn with_sum(mut sums: SumConditions, relation: u8, bits: u32, read: Terms) -> SumConditions
    ensures { result ≡ with_sum sums relation (constant bits) read }
{
    let constant = integers::signed(bits);
    if sums.count < SUMS {
        sums.places[sums.count] = sum_condition(relation, constant, read);
        sums.count += 1;
    }
    sums
}

// The K of the source action, or of the goal of a source file, whose bytes these are, each with the T directly behind it, taken one by one up to
// the next A or G. A K that is cut short is not taken. Of more K or T than there is room for, which no accepted file has, the first are taken.
pub fn decode_sums(bytes: &[u8]) -> SumConditions
    ensures { SumsDecoded (sum_conditions_of (decode_action bytes.now)) result }
{
    let mut sums = no_sums();
    let mut at = body_start(bytes);
    while at < bytes.len() {
        let rest = &bytes[at..];
        let byte = rest[0];
        at += commands::size_of(byte);
        match byte {
            b'K' => {
                let Command::Sum(relation, bits) = commands::read_sum(rest) else {
                    continue;
                };
                sums = with_sum(sums, relation, bits, terms_at(bytes, at));
            }
            b'A' | b'G' => break,
            _ => {}
        }
    }
    sums
}
