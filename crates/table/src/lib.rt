// The table that the rule tests read, filled: the list of places is put into it, and blocks are entered one by one.
#![tactic(auto)]

ghost use Rattle.std.specs.Prelude.{◌≡◌, cond, ◌+◌, ◌^◌, ◌≤◌, ◌<◌, length, get_or};
ghost use Rattle.bounded.specs.Mask.{bit};
ghost use Rattle.problem.specs.Places.{place_list};
ghost use Rattle.problem.specs.Held.{table_length, Located};
ghost use Rattle.problem.specs.Filling.{Entered};
ghost use Rattle.table.specs.Parts.{transposed_row, transposed_rows, cleared, Wrote, HasPlaces, Blank};

use bounded::{Set, where16};
use held::{FAR_START, TABLE_LENGTH, rows_at};

// ---- a block turned

// What row a gives to turned row b: 2^a where the row has b, else 0.
fn lane(row: u16, b: usize, a: usize) -> u16
    requires { (b < 16) × (a < 16) }
    ensures { result ≡ cond (bit row b) (2 ^ a) 0 }
{
    where16(row, b, 1u16 << a)
}

// Turned row b. The loop is never left early, so that the compiler can do many rows at once.
fn column(rows: &[u16; 16], b: usize) -> u16
    requires { b < 16 }
    ensures { result ≡ transposed_row rows.now b }
{
    let mut word: u16 = 0;
    for a in 0..16 {
        word = word | lane(rows[a], b, a);
    }
    word
}

// All turned rows.
fn turn(rows: &[u16; 16], turned: &mut [u16; 16])
    requires { length turned.old ≡ 16 }
    ensures { turned.new ≡ transposed_rows rows.now }
{
    for b in 0..16 {
        turned[b] = column(rows, b);
    }
}

// ---- parts of the table

// A table before it is filled: every bit of every entry is set, so that nothing is barred and nothing has a block.
pub fn blank_table() -> [u16; TABLE_LENGTH]
    ensures { Blank result }
{
    [65535u16; TABLE_LENGTH]
}

// Stores 16 rows from `at` on.
fn put_rows(t: &mut [u16], at: usize, rows: &[u16; 16])
    requires { at + 16 ≤ length t.old }
    ensures { Wrote 16 t.old t.new at (λ a. get_or rows.now a 0) }
{
    for a in 0..16 {
        t[at + a] = rows[a];
    }
}

// Variable j is no longer one that has no block with i.
fn clear_far(t: &mut [u16], i: usize, j: usize)
    requires { (length t.old ≡ table_length) × (i < 32) × (j < 32) }
    ensures { t.new ≡ cleared t.old i j }
{
    let at = FAR_START + (32 * (j / 16) + i);
    t[at] = t[at].without(j % 16);
}

// Stores the list of places behind the sizes.
fn copy_places(t: &mut [u16], q: &[u16; 1024])
    requires { (length t.old ≡ table_length) × (q.now ≡ place_list) }
    ensures { HasPlaces t.old t.new }
{
    for k in 0..1024 {
        t[32 + k] = q[k];
    }
}

// Puts the list of places into a table. The sizes and all that stands behind the list are as they were.
pub fn put_places(t: &mut [u16])
    requires { length t.old ≡ table_length }
    ensures { HasPlaces t.old t.new }
{
    let q = places::places();
    copy_places(t, &q);
}

// ---- a block entered

// Enters the block of i and j: its rows at their place, the rows turned at theirs, and neither is without a block with the other.
pub fn enter(t: &mut [u16], i: usize, j: usize, rows: &[u16; 16])
    requires { Located t.old × (i < j) × (j < 32) }
    ensures { Entered t.old i j rows.now t.new }
{
    let mut turned = [0u16; 16];
    turn(rows, &mut turned);
    let own = rows_at(t, i, j);
    let other = rows_at(t, j, i);
    put_rows(t, own, rows);
    put_rows(t, other, &turned);
    clear_far(t, i, j);
    clear_far(t, j, i);
}
