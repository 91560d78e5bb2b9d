// Records undone last first, each against the state before it: putting the variables that were taken out back into a plan.
#![tactic(auto)]

ghost use Rattle.std.specs.Prelude.{◌≡◌, true, ◌≢◌, ◌<◌, T};
ghost use Rattle.bounded.specs.Quantifiers.{lowest};
ghost use Rattle.bounded.specs.Mask.{bit};
ghost use Rattle.bounded.specs.Table.{tab};
ghost use Rattle.problem.specs.Problem.{lowest_live, snake_serves, triangle_serves};
ghost use Rattle.problem.specs.PutBack.{undo, plan_of};
ghost use Rattle.problem.specs.Held.{held, RowTable};
ghost use Rattle.problem.specs.Masks.{state_of};
ghost use Rattle.problem.specs.declared.Record.TheVariants.{Snake, Triangle};
ghost use Rattle.held.specs.Ready.{Value, Values};
ghost use Rattle.buffers.specs.Bytes.{Is};
ghost use Rattle.replay.specs.Walk.{checked_from};
ghost use Rattle.undo.specs.Undone.{mended as mended_at, UndoneTo, Undoable, UndoableFrom, undone_by};
ghost use Rattle.undo.specs.Found.{is_record, LawfulFound, after_found, UndoableFound, undone_found};

use bounded::Set;
use held::View;
use problem::{Masks, Record};
use replay::after_lawful;
use trace::{Reader, RecordRead, moved, peek, placed};

// ---- the lowest choice

// The lowest of a set of values of i, or its size where there is none: no Option, since the definition (`lowest_live`) says the size.
fn lowest_of(t: &[u16], set: u16, i: usize) -> usize
    requires { RowTable t.now × Values t.now i set × (i < 32) }
    ensures { Is (lowest ((held t.now).size i) (bit set)) 17 result }
{
    if set == 0 {
        held::size(t, i)
    } else {
        set.lowest()
    }
}

// ---- undoing kind 2

// The lowest w' that may take the place of w at j where i has v.
fn lowest_snake(view: View, i: usize, v: usize, j: usize, w: usize) -> usize
    requires { Value view.table.now i v × (Value view.table.now j w × (j ≢ i)) }
    ensures { Is (lowest_live (held view.entry.table.now) (state_of view.entry.state.now) j (λ c. snake_serves (held view.entry.table.now) (state_of view.entry.state.now) i v j w c)) 17 result }
{
    lowest_of(view.table, snake::snake_servers(view, i, v, j, w), j)
}

// The value of another active variable j once i has v.
fn mended_other(view: View, i: usize, v: usize, j: usize, w: u8) -> u8
    requires { Value view.table.now i v × (Value view.table.now j w × (((state_of view.state.now).active j ≡ true) × (j ≢ i))) }
    ensures { result ≡ mended_at (held view.entry.table.now) (state_of view.entry.state.now) i v j w }
{
    if held::pair_allowed(view.table, i, v, j, w as usize) {
        w
    } else {
        lowest_snake(view, i, v, j, w as usize) as u8
    }
}

// The value of j once i has v. What stands at a variable that is not active is left, and i is set afterwards.
fn mended(view: View, i: usize, v: usize, j: usize, w: u8) -> u8
    requires { Value view.table.now i v × ((j < 32) × (T ((state_of view.state.now).active j) → j ≢ i → T ((state_of view.state.now).live j w))) }
    ensures { result ≡ mended_at (held view.entry.table.now) (state_of view.entry.state.now) i v j w }
{
    if view.state.active.has(j) & (j != i) {
        mended_other(view, i, v, j, w)
    } else {
        w
    }
}

// Each other item's setting that is barred with v changes.
fn repair(view: View, i: usize, v: usize, out: &mut [u8])
    requires { Value view.table.now i v × UndoneTo view.table.now view.state.now i out.old }
    ensures { out.new ≡ tab (held view.entry.table.now).n (λ j. mended_at (held view.entry.table.now) (state_of view.entry.state.now) i v j (plan_of out.old j)) }
{
    for (j, w) in out.iter_mut().enumerate() {
        *w = mended(view, i, v, j, *w);
    }
}

fn undo_snake(view: View, i: usize, v: usize, out: &mut [u8])
    requires { Undoable view.table.now view.state.now (Snake i v) out.old }
    ensures { out.new ≡ tab (held view.entry.table.now).n (undo (held view.entry.table.now) (state_of view.entry.state.now) (Snake i v) (plan_of out.old)) }
{
    repair(view, i, v, out);
    out[i] = v as u8;
}

// ---- undoing kind 3

// The lowest u of i that serves for value v of j.
fn lowest_triangle(view: View, i: usize, j: usize, v: usize) -> usize
    requires { Value view.table.now j v × ((i < 32) × (j ≢ i)) }
    ensures { Is (lowest_live (held view.entry.table.now) (state_of view.entry.state.now) i (λ c. triangle_serves (held view.entry.table.now) (state_of view.entry.state.now) i j v c)) 17 result }
{
    lowest_of(view.table, triangle::triangle_servers(view, i, j, v), i)
}

fn undo_triangle(view: View, i: usize, j: usize, out: &mut [u8])
    requires { Undoable view.table.now view.state.now (Triangle i j) out.old }
    ensures { out.new ≡ tab (held view.entry.table.now).n (undo (held view.entry.table.now) (state_of view.entry.state.now) (Triangle i j) (plan_of out.old)) }
{
    out[i] = lowest_triangle(view, i, j, out[j] as usize) as u8;
}

// ---- undoing a trace

// One record undone against the state before it. Kinds 1, 4 and 5 change nothing.
fn undo_record(view: View, r: Record, out: &mut [u8])
    requires { Undoable view.table.now view.state.now r out.old }
    ensures { out.new ≡ tab (held view.entry.table.now).n (undo (held view.entry.table.now) (state_of view.entry.state.now) r (plan_of out.old)) }
{
    match r {
        Record::Unsupported(_, _, _) => {}
        Record::Snake(i, v) => undo_snake(view, i, v, out),
        Record::Triangle(i, j) => undo_triangle(view, i, j, out),
        Record::Neighbourhood(_, _, _) => {}
        Record::SnakeSubstitution(_, _, _) => {}
    }
}

// A whole record was found.
fn is_record(x: RecordRead) -> bool
    ensures { result ≡ is_record x }
{
    match x {
        RecordRead::Read { record: _, next: _ } => true,
        RecordRead::End => false,
        RecordRead::Malformed => false,
    }
}

// The state after what was found: a lawful record's, and otherwise the same.
fn after_found(view: View, x: RecordRead) -> Masks
    requires { LawfulFound view.table.now view.state.now x }
    ensures { result ≡ after_found (held view.entry.table.now) view.entry.state.now x }
{
    match x {
        RecordRead::Read { record, next: _ } => after_lawful(view, record),
        RecordRead::End => *view.state,
        RecordRead::Malformed => *view.state,
    }
}

// What was found undone: a record, and otherwise nothing.
fn undo_found(view: View, x: RecordRead, out: &mut [u8])
    requires { UndoableFound view.table.now view.state.now x out.old }
    ensures { out.new ≡ undone_found (held view.entry.table.now) (state_of view.entry.state.now) x out.old }
{
    match x {
        RecordRead::Read { record, next: _ } => undo_record(view, record, out),
        RecordRead::End => {}
        RecordRead::Malformed => {}
    }
}

// The records from the reader's place on undone, last first: each call keeps the state before its record until the later ones are undone.
fn undo_from<'a>(view: View, r: Reader<'a>, out: &mut [u8])
    requires { UndoableFrom view.table.now r.src.now view.state.now r.at out.old }
    ensures { out.new ≡ undone_by (held view.entry.table.now) (state_of view.entry.state.now) (checked_from (held view.entry.table.now) r.entry.src.now (state_of view.entry.state.now) 0 r.entry.at) out.old }
{
    let x = peek(r);
    if is_record(x) {
        let state = after_found(view, x);
        let later = View {
            table: view.table,
            state: &state,
        };
        undo_from(later, moved(r), out);
        undo_found(view, x, out);
    }
}

// The whole trace undone from the first state, by one reader: plain parameters, so that its caller needs no walk.
pub fn undo_all(first: View, trace: &[u8], out: &mut [u8])
    requires { UndoableFrom first.table.now trace.now first.state.now 1 out.old }
    ensures { out.new ≡ undone_by (held first.entry.table.now) (state_of first.entry.state.now) (checked_from (held first.entry.table.now) trace.now (state_of first.entry.state.now) 0 1) out.old }
{
    undo_from(first, placed(trace, 1), out);
}
