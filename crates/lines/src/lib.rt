// The lines of a state, drawn from a table: what each value allows at every variable, side by side.
#![tactic(auto)]

ghost use Rattle.std.specs.Prelude.{◌≡◌, ◌≢◌, ◌<◌, replicate};
ghost use Rattle.bounded.specs.Mask.{without as without_of};
ghost use Rattle.problem.specs.Held.{held, RowTable};
ghost use Rattle.problem.specs.Masks.{state_of};
ghost use Rattle.held.specs.Ready.{Ready};
ghost use Rattle.lines.specs.Lines.{lines_length, Drawn, DrawnTo, PairDrawn};

use bounded::Set;
use held::{neighbours, rows_at};
use problem::Masks;

// 32 variables, 16 values each, 32 words a value.
pub const LINES: usize = 16384;

// The 16 rows of i towards another variable j, each at its place in the line of its value.
fn draw_pair(t: &[u16], lines: &mut [u16; LINES], i: usize, j: usize)
    requires { RowTable t.now × (i < 32) × (j < 32) × (i ≢ j) }
    ensures { PairDrawn t.now lines.old i j 16 lines.new }
{
    let from = rows_at(t, i, j);
    for a in 0..16 {
        lines[512 * i + 32 * a + j] = t[from + a];
    }
}

// The lines of i, at the variables of a set but i.
fn draw_variable(t: &[u16], lines: &mut [u16; LINES], some: u32, i: usize)
    requires { RowTable t.now × (i < 32) }
    ensures { DrawnTo t.now lines.old i (without_of 32 some i) 0 lines.new }
{
    let mut rest = some.without(i);
    while rest != 0 {
        let j = rest.lowest();
        rest = rest.without(j);
        draw_pair(t, lines, i, j);
    }
}

// The lines of every active variable, at its neighbours. What is not drawn allows everything: at a variable without a block, and at its own a
// value meets itself.
pub fn draw(t: &[u16], m: Masks, lines: &mut [u16; LINES])
    requires { Ready t.now m × (lines.old ≡ replicate lines_length 65535) }
    ensures { Drawn (held t.now) (state_of m) lines.new }
{
    let active = m.active;
    let mut rest = active;
    while rest != 0 {
        let i = rest.lowest();
        rest = rest.without(i);
        draw_variable(t, lines, active & neighbours(t, i), i);
    }
}
