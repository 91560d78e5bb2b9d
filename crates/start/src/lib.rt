// docs/FORMAT.md, "Taking out by hand": the start, by sweeps over a filled table until one changes nothing.
#![tactic(auto)]

ghost use Rattle.hand.specs.Call.{start_call};
ghost use Rattle.std.specs.Prelude.{◌≡◌, ◌<◌};
ghost use Rattle.problem.specs.Problem.{none_empty, max_variables};
ghost use Rattle.problem.specs.Hand.{start as largest};
ghost use Rattle.problem.specs.Masks.{state_of, masks_of};
ghost use Rattle.problem.specs.Held.{held, RowTable};
ghost use Rattle.hand.specs.Hand.{start_refused, start_over, start_job};
ghost use Rattle.support.specs.Words.{domain_left};
ghost use Rattle.start.specs.Parts.{prune_below, same_domains};

use hand::{HandState, StartAnswer};
use held::View;
use problem::Masks;
use sheet::SheetRefusal;
use support::supported;

// ---- one sweep

// The domain of i after one sweep. `lasts` says that no item in is without a setting on; at one that is, nothing has a partner.
fn domain_left(view: View, lasts: bool, i: usize) -> u16
    requires { (lasts ≡ none_empty (held view.table.now) (state_of view.state.now)) × (i < 32) }
    ensures { result ≡ domain_left (held view.entry.table.now) (state_of view.entry.state.now) i }
{
    if lasts { supported(view, i) } else { 0 }
}

// Item after item, each setting without a partner at some other item goes off, and the items that follow are judged by what is left.
fn sweep(view: View) -> Masks
    ensures { result ≡ masks_of (prune_below max_variables (held view.entry.table.now) (state_of view.entry.state.now)) }
{
    let mut r = *view.state;
    let mut lasts = view.none_empty();
    for i in 0..32 {
        let was = r.domains[i];
        let so_far = View {
            table: view.table,
            state: &r,
        };
        let left = domain_left(so_far, lasts, i);
        r.domains[i] = left;
        lasts = lasts & ((left != 0) | (was == 0));
    }
    r
}

// ---- the start

fn same_domains(x: Masks, y: Masks) -> bool
    ensures { result ≡ same_domains x y }
{
    x.domains == y.domains
}

// Sweeps until one changes nothing. Each before it takes at least one setting off, so that they end.
fn settle(t: &[u16]) -> Masks
    requires { RowTable t.now }
    ensures { result ≡ masks_of (largest (held t.now)) }
{
    let mut kept = held::full_masks(t);
    let full = View {
        table: t,
        state: &kept,
    };
    let mut next = sweep(full);
    while !same_domains(kept, next) {
        kept = next;
        let view = View {
            table: t,
            state: &kept,
        };
        next = sweep(view);
    }
    kept
}

// The start over a filled table: the state with all items in and the largest sets of settings in which each has a partner at every other
// item.
pub fn start_over(t: &[u16]) -> StartAnswer
    requires { RowTable t.now }
    ensures { result ≡ start_over (held t.now) }
{
    let masks = settle(t);
    let state = HandState { masks };
    StartAnswer {
        outcome: Ok(()),
        state,
    }
}

// A state with no items in and no settings on.
fn refused_start(r: SheetRefusal) -> StartAnswer
    ensures { result ≡ start_refused r }
{
    let masks = problem::empty_masks();
    let state = HandState { masks };
    StartAnswer {
        outcome: Err(r),
        state,
    }
}

// The start of a sheet: it is read, its table filled on the way, and the start is over the table.
pub fn start(s: &[u8]) -> StartAnswer
    ensures { result ≡ start_job s.now }
{
    let mut t = table::blank_table();
    match read_sheet::read_table(s, &mut t) {
        Ok(_) => start_over(&t),
        Err(r) => refused_start(r),
    }
}

// ---- from C

// The start of taking out by hand. The refusal's number, or 0 with the state written.
pub fn start_call(sheet: &[u8], state: &mut [u8]) -> u64
    ensures answer { result ≡ (start_call sheet.now state.old).answer }
    ensures state { state.new ≡ (start_call sheet.now state.old).state }
{
    if state.len() != boundary::STATE_LENGTH {
        return boundary::bad_hand_state();
    }
    let first = start(sheet);
    match first.outcome {
        Ok(()) => {
            let st = first.state;
            boundary::put_state(state, st.masks);
            0
        }
        Err(r) => u8::from(r) as u64,
    }
}
