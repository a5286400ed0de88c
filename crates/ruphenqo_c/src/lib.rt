// The functions of include/ruphenqo.h, exported for C: each is the library's function of its name, and states what that one states. A static
// library is none that another crate of Rattle can use, so it stands apart.
#![tactic(auto)]

ghost use Rattle.std.specs.Prelude.{◌≡◌};
ghost use Rattle.answers.specs.Answer.{given, lent};
ghost use Rattle.model.specs.Limits.{source_limits, restricted_limits};
ghost use Rattle.model.specs.Reading.{verdict_of};
ghost use Rattle.model.specs.ActionBytes.{action_place};
ghost use Rattle.model.specs.Judging.{judge_source, judge_restricted, step_restricted_alone, step_source_alone, price_step, price_plan};
ghost use Rattle.model.specs.Judging.{lower_bytes, expand_bytes, project_bytes};
ghost use Rattle.model.specs.Listing.{listing};
ghost use Rattle.restricted_judge.specs.Judging.{zeros};
ghost use Rattle.source_walk.specs.Answers.{zeros as source_zeros};
ghost use Rattle.refusals.specs.Texts.{refusal_text};
ghost use Rattle.ruphenqo.specs.Told.{Told, counts_of, itself, state_of, state_over, end_over};
ghost use Rattle.ruphenqo.specs.Start.{declares_of, declares_over, start_source, start_restricted};
ghost use Rattle.ruphenqo.specs.Version.{VERSION};

// The version of the library.
#[unsafe(no_mangle)]
pub extern "C" fn ruphenqo_version() -> u32
    ensures { result ≡ VERSION }
{
    ruphenqo::ruphenqo_version()
}

// Reads a source file: the counts of its variables, modes and actions.
#[unsafe(no_mangle)]
pub extern "C" fn ruphenqo_read_source(task: &[u8], counts: &mut [u64; 3], place: &mut u64) -> u32
    ensures { Told (counts_of (verdict_of source_limits task.now)) itself counts.old result place.new counts.new }
{
    ruphenqo::ruphenqo_read_source(task, counts, place)
}

// Reads a restricted file.
#[unsafe(no_mangle)]
pub extern "C" fn ruphenqo_read_restricted(
    task: &[u8],
    counts: &mut [u64; 3],
    place: &mut u64,
) -> u32
    ensures { Told (counts_of (verdict_of restricted_limits task.now)) itself counts.old
        result place.new counts.new }
{
    ruphenqo::ruphenqo_read_restricted(task, counts, place)
}

// The state before any step of a source task, the bounds of its variables and the sizes of its modes, each in front of zeros.
#[unsafe(no_mangle)]
pub extern "C" fn ruphenqo_source_start(
    task: &[u8],
    values: &mut [i64; 8],
    modes: &mut [u16; 4],
    lower: &mut [i64; 8],
    upper: &mut [i64; 8],
    sizes: &mut [u16; 4],
    place: &mut u64,
) -> u32
    ensures { Told (start_source task.now) (declares_over source_zeros)
        (declares_of (state_of values.old modes.old) lower.old upper.old sizes.old) result place.new
        (declares_of (state_of values.new modes.new) lower.new upper.new sizes.new) }
{
    ruphenqo::ruphenqo_source_start(task, values, modes, lower, upper, sizes, place)
}

// The state before any step of a restricted task, in front of zeros.
#[unsafe(no_mangle)]
pub extern "C" fn ruphenqo_restricted_start(
    task: &[u8],
    values: &mut [i64; 64],
    modes: &mut [u16; 8],
    place: &mut u64,
) -> u32
    ensures { Told (start_restricted task.now) (state_over zeros) (state_of values.old modes.old)
        result place.new (state_of values.new modes.new) }
{
    ruphenqo::ruphenqo_restricted_start(task, values, modes, place)
}

// Where the bytes of action k of a source file start and end.
#[unsafe(no_mangle)]
pub extern "C" fn ruphenqo_source_action(
    task: &[u8],
    k: u64,
    start: &mut u64,
    end: &mut u64,
    place: &mut u64,
) -> u32
    ensures { Told (action_place source_limits task.now k) itself (start.old, end.old)
        result place.new (start.new, end.new) }
{
    ruphenqo::ruphenqo_source_action(task, k, start, end, place)
}

// Likewise of a restricted file.
#[unsafe(no_mangle)]
pub extern "C" fn ruphenqo_restricted_action(
    task: &[u8],
    k: u64,
    start: &mut u64,
    end: &mut u64,
    place: &mut u64,
) -> u32
    ensures { Told (action_place restricted_limits task.now k) itself (start.old, end.old)
        result place.new (start.new, end.new) }
{
    ruphenqo::ruphenqo_restricted_action(task, k, start, end, place)
}

// Judges a source plan: the count of its steps and the end state.
#[unsafe(no_mangle)]
pub extern "C" fn ruphenqo_judge_source(
    task: &[u8],
    plan: &[u8],
    steps: &mut u64,
    values: &mut [i64; 8],
    modes: &mut [u16; 4],
    place: &mut u64,
) -> u32
    ensures { Told (judge_source task.now plan.now)
        (end_over source_zeros) (steps.old, state_of values.old modes.old)
        result place.new (steps.new, state_of values.new modes.new) }
{
    ruphenqo::ruphenqo_judge_source(task, plan, steps, values, modes, place)
}

// Judges a restricted plan: the count of its steps and the end state.
#[unsafe(no_mangle)]
pub extern "C" fn ruphenqo_judge_restricted(
    task: &[u8],
    plan: &[u8],
    steps: &mut u64,
    values: &mut [i64; 64],
    modes: &mut [u16; 8],
    place: &mut u64,
) -> u32
    ensures { Told (judge_restricted task.now plan.now)
        (end_over zeros) (steps.old, state_of values.old modes.old)
        result place.new (steps.new, state_of values.new modes.new) }
{
    ruphenqo::ruphenqo_judge_restricted(task, plan, steps, values, modes, place)
}

// Takes a step by itself in the state that the arrays hold.
#[unsafe(no_mangle)]
pub extern "C" fn ruphenqo_step_restricted(
    task: &[u8],
    values: &mut [i64; 64],
    modes: &mut [u16; 8],
    k: u64,
    place: &mut u64,
) -> u32
    ensures { Told (step_restricted_alone task.now (state_of values.old modes.old) k)
        itself (state_of values.old modes.old)
        result place.new (state_of values.new modes.new) }
{
    ruphenqo::ruphenqo_step_restricted(task, values, modes, k, place)
}

// Takes a step by itself in the state that the arrays hold, in a source task.
#[unsafe(no_mangle)]
pub extern "C" fn ruphenqo_step_source(
    task: &[u8],
    values: &mut [i64; 8],
    modes: &mut [u16; 4],
    k: u64,
    place: &mut u64,
) -> u32
    ensures { Told (step_source_alone task.now (state_of values.old modes.old) k)
        itself (state_of values.old modes.old)
        result place.new (state_of values.new modes.new) }
{
    ruphenqo::ruphenqo_step_source(task, values, modes, k, place)
}

// The price of a step by itself.
#[unsafe(no_mangle)]
pub extern "C" fn ruphenqo_price_step(
    task: &[u8],
    values: &[i64; 8],
    modes: &[u16; 4],
    k: u64,
    price: &mut u64,
    place: &mut u64,
) -> u32
    ensures { Told (price_step task.now (state_of values.now modes.now) k) itself price.old
        result place.new price.new }
{
    ruphenqo::ruphenqo_price_step(task, values, modes, k, price, place)
}

// The price of a plan.
#[unsafe(no_mangle)]
pub extern "C" fn ruphenqo_price_plan(
    task: &[u8],
    plan: &[u8],
    price: &mut u64,
    place: &mut u64,
) -> u32
    ensures { Told (price_plan task.now plan.now) itself price.old result place.new price.new }
{
    ruphenqo::ruphenqo_price_plan(task, plan, price, place)
}

// The lowered task's file, written into lent output.
#[unsafe(no_mangle)]
pub extern "C" fn ruphenqo_lower(
    task: &[u8],
    out: &mut [u8],
    length: &mut u64,
    place: &mut u64,
) -> u32
    ensures told { Told (lent out.old (lower_bytes task.now)).0 itself length.old
        result place.new length.new }
    ensures out_after { out.new ≡ (lent out.old (lower_bytes task.now)).1 }
{
    ruphenqo::ruphenqo_lower(task, out, length, place)
}

// The expansion of a source plan, written into lent output.
#[unsafe(no_mangle)]
pub extern "C" fn ruphenqo_expand(
    task: &[u8],
    plan: &[u8],
    out: &mut [u8],
    length: &mut u64,
    place: &mut u64,
) -> u32
    ensures told { Told (lent out.old (expand_bytes task.now plan.now)).0 itself length.old
        result place.new length.new }
    ensures out_after { out.new ≡ (lent out.old (expand_bytes task.now plan.now)).1 }
{
    ruphenqo::ruphenqo_expand(task, plan, out, length, place)
}

// The listing of a source plan, written into lent output. A refused task or plan is a line of it: the only refusal is 8.
#[unsafe(no_mangle)]
pub extern "C" fn ruphenqo_list(
    task: &[u8],
    plan: &[u8],
    out: &mut [u8],
    length: &mut u64,
    place: &mut u64,
) -> u32
    ensures told { Told (lent out.old (given (listing task.now plan.now))).0 itself length.old
        result place.new length.new }
    ensures out_after { out.new ≡ (lent out.old (given (listing task.now plan.now))).1 }
{
    ruphenqo::ruphenqo_list(task, plan, out, length, place)
}

// The source plan that a restricted plan of the lowering projects to, written into lent output.
#[unsafe(no_mangle)]
pub extern "C" fn ruphenqo_project(
    task: &[u8],
    plan: &[u8],
    out: &mut [u8],
    length: &mut u64,
    place: &mut u64,
) -> u32
    ensures told { Told (lent out.old (project_bytes task.now plan.now)).0 itself length.old
        result place.new length.new }
    ensures out_after { out.new ≡ (lent out.old (project_bytes task.now plan.now)).1 }
{
    ruphenqo::ruphenqo_project(task, plan, out, length, place)
}

// The text of an answer's number, written into lent output. The only refusal is 8.
#[unsafe(no_mangle)]
pub extern "C" fn ruphenqo_refusal_text(
    number: u32,
    out: &mut [u8],
    length: &mut u64,
    place: &mut u64,
) -> u32
    ensures told { Told (lent out.old (given (refusal_text number))).0 itself length.old result place.new length.new }
    ensures out_after { out.new ≡ (lent out.old (given (refusal_text number))).1 }
{
    ruphenqo::ruphenqo_refusal_text(number, out, length, place)
}
