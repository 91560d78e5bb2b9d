// The lowest step of each kind but the first from a variable. A test is made where it is pending: what is not has failed, and what its failure
// rests on has not changed.
#![tactic(auto)]

ghost use Rattle.std.specs.Prelude.{◌≡◌, ◌<◌};
ghost use Rattle.problem.specs.Held.{held};
ghost use Rattle.problem.specs.Masks.{state_of};
ghost use Rattle.search_order.specs.Lowest.{step_from};
ghost use Rattle.waiting.specs.Waiting.{Waits};

use bounded::Set;
use held::View;
use neighbourhood::neighbourhood_rests;
use problem::Record;
use snake::snake_rests;
use snake_substitution::{lowest_substitution, substitution_rests};
use triangle::triangle_rests;
use waiting::{Memory, NEIGHBOURHOODS, SNAKES, SUBSTITUTIONS};

pub fn snake_variable(view: View, memory: &mut Memory, i: usize) -> Option<Record>
    requires { Waits (held view.table.now) (state_of view.state.now) memory.old.pending memory.old.waiting × (i < 32) }
    ensures is { result ≡ step_from (held view.entry.table.now) (state_of view.entry.state.now) 2 i }
    ensures waits { Waits (held view.entry.table.now) (state_of view.entry.state.now) memory.new.pending memory.new.waiting }
{
    let mut left = memory.pending_of(SNAKES, i) & view.state.domains[i];
    while left != 0 {
        let v = left.lowest();
        let fails = snake_rests(view, i, v);
        if fails == 0 {
            return Some(Record::Snake(i, v));
        }
        memory.learn(fails, SNAKES, i, v);
        left = left.without(v);
    }
    None
}

pub fn triangle_variable(view: View, memory: &mut Memory, i: usize) -> Option<Record>
    requires { Waits (held view.table.now) (state_of view.state.now) memory.old.pending memory.old.waiting × (i < 32) }
    ensures is { result ≡ step_from (held view.entry.table.now) (state_of view.entry.state.now) 3 i }
    ensures waits { Waits (held view.entry.table.now) (state_of view.entry.state.now) memory.new.pending memory.new.waiting }
{
    if !view.state.active.has(i) {
        return None;
    }
    let mut left = (view.state.active & memory.pending_triangles(i)).without(i);
    while left != 0 {
        let j = left.lowest();
        match triangle_rests(view, i, j) {
            None => return Some(Record::Triangle(i, j)),
            Some(u) => memory.learn_triangle(u.rests, i, j, u.value),
        }
        left = left.without(j);
    }
    None
}

// The values that substitute for b are found together, and the lowest is taken.
pub fn neighbourhood_variable(view: View, memory: &mut Memory, i: usize) -> Option<Record>
    requires { Waits (held view.table.now) (state_of view.state.now) memory.old.pending memory.old.waiting × (i < 32) }
    ensures is { result ≡ step_from (held view.entry.table.now) (state_of view.entry.state.now) 4 i }
    ensures waits { Waits (held view.entry.table.now) (state_of view.entry.state.now) memory.new.pending memory.new.waiting }
{
    let mut left = memory.pending_of(NEIGHBOURHOODS, i) & view.state.domains[i];
    while left != 0 {
        let b = left.lowest();
        let found = neighbourhood_rests(view, i, b);
        if found.left != 0 {
            return Some(Record::Neighbourhood(i, b, found.left.lowest()));
        }
        memory.learn(found.broken, NEIGHBOURHOODS, i, b);
        left = left.without(b);
    }
    None
}

// All values of a variable are one test.
pub fn substitution_variable(view: View, memory: &mut Memory, i: usize) -> Option<Record>
    requires { Waits (held view.table.now) (state_of view.state.now) memory.old.pending memory.old.waiting × (i < 32) }
    ensures is { result ≡ step_from (held view.entry.table.now) (state_of view.entry.state.now) 5 i }
    ensures waits { Waits (held view.entry.table.now) (state_of view.entry.state.now) memory.new.pending memory.new.waiting }
{
    if !memory.pending_of(SUBSTITUTIONS, i).has(0) | (view.state.domains[i] == 0) {
        return None;
    }
    let mut goals = [0u16; 16];
    let rests = substitution_rests(view, &mut goals, i);
    let found = lowest_substitution(&goals, i);
    if found.is_some() {
        return found;
    }
    memory.learn(rests, SUBSTITUTIONS, i, 0);
    None
}
