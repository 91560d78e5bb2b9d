// A filled table and a state of its problem: sizes, rows, the first state, and whether an active variable has an empty domain. A row of
// the table is the set of values allowed with one value.
#![tactic(auto)]

ghost use Rattle.std.specs.Prelude.{◌≡◌, true, false, ◌≢◌, ◌<◌, ◌≤◌, ◌+◌, ◌*◌, ◌^◌, ltb};
ghost use Rattle.std.specs.Int.Bits.{bit_and};
ghost use Rattle.bounded.specs.Quantifiers.{imp};
ghost use Rattle.bounded.specs.Mask.{bit, mask_of};
ghost use Rattle.problem.specs.Problem.{none_empty, any_live, full, size_sum};
ghost use Rattle.problem.specs.Held.{row_word, table_length, rows_at, held, Located, RowTable};
ghost use Rattle.problem.specs.Masks.{state_of, masks_of, sets, Proper};
ghost use Rattle.held.specs.Ready.{Ready, Value, Values, Near};

use bounded::Set;
use problem::Masks;

// ---- the layout of a table

// Where the words start that say who has no block with whom: behind 32 sizes and 1,024 places. A word a variable for those below 16, and
// another for those from 16 on.
pub const FAR_START: usize = 1056;

const FAR_SECOND: usize = FAR_START + 32;

// Where the rows start: behind these.
const ROWS_START: usize = FAR_SECOND + 32;

// The entries of a table: 32 rows for each of 496 places.
pub const TABLE_LENGTH: usize = ROWS_START + 32 * 496;

// ---- sizes

// How many values variable i has.
pub fn size(t: &[u16], i: usize) -> usize
    requires { RowTable t.now × (i < 32) }
    ensures { result ≡ (held t.now).size i }
{
    t[i] as usize
}

// How many variables the table holds: a size of 0 ends them.
pub fn variables(t: &[u16]) -> usize
    requires { RowTable t.now }
    ensures { result ≡ (held t.now).n }
{
    for i in 0..32 {
        if t[i] == 0 {
            return i;
        }
    }
    32
}

// The sum of the sizes that a table holds.
pub fn size_sum(t: &[u16]) -> usize
    requires { RowTable t.now }
    ensures is { result ≡ size_sum (held t.now) }
    ensures within { result ≤ 512 }
{
    let n = variables(t);
    let mut sum: usize = 0;
    for i in 0..n {
        sum += t[i] as usize;
    }
    sum
}

// ---- rows

// Where the 16 rows of i towards another variable j start: the list of places tells, and nothing else knows it.
pub fn rows_at(t: &[u16], i: usize, j: usize) -> usize
    requires { Located t.now × (i < 32) × (j < 32) × (i ≢ j) }
    ensures is { result ≡ rows_at i j }
    ensures within { result + 16 ≤ table_length }
{
    let place = t[32 + (32 * i + j)] as usize;
    if i < j {
        ROWS_START + 32 * place
    } else {
        ROWS_START + (32 * place + 16)
    }
}

// 1, as the list of places has it for items 0 and 2: a bit that the compiler does not know, for the first lane of sixteen (`bounded::lane`).
pub fn one_of(t: &[u16]) -> u16
    requires { Located t.now }
    ensures { result ≡ 1 }
{
    t[34]
}

// Of a set of values of j, those that are allowed with value a of another variable i. The word in the table may have bits beyond the size
// of j, and the set has none.
pub fn row_among(t: &[u16], set: u16, i: usize, j: usize, a: usize) -> u16
    requires { RowTable t.now × Values t.now j set × Value t.now i a × (j < 32) × (j ≢ i) }
    ensures { result ≡ bit_and set (row_word (held t.now) i j a) }
{
    set & t[rows_at(t, i, j) + a]
}

// The values of another variable j that are allowed with value a of i.
pub fn row(t: &[u16], i: usize, j: usize, a: usize) -> u16
    requires { RowTable t.now × Value t.now i a × (j < 32) × (j ≢ i) }
    ensures { result ≡ row_word (held t.now) i j a }
{
    row_among(t, u16::below(size(t, j)), i, j, a)
}

// Value a of i is allowed with value b of j. No two values of one variable are, and there is no row between them.
pub fn pair_allowed(t: &[u16], i: usize, a: usize, j: usize, b: usize) -> bool
    requires { RowTable t.now × Value t.now i a × Value t.now j b }
    ensures { result ≡ (held t.now).allowed i a j b }
{
    if j == i {
        false
    } else {
        t[rows_at(t, i, j) + a].has(b)
    }
}

// Two sets of 16 as one of 32. It tells too that the first is one of 16: of a word in a lent array a caller does not know that.
pub fn joined(low: u16, high: u16) -> u32
    ensures is { result ≡ low + 65536 * high }
    ensures apart { low < 2 ^ 16 }
{
    (low as u32) + 65536 * (high as u32)
}

// The variables that have a block with i. Any other bars nothing with it.
pub fn neighbours(t: &[u16], i: usize) -> u32
    requires { RowTable t.now × (i < 32) }
    ensures { Near t.now i result }
{
    !joined(t[FAR_START + i], t[FAR_SECOND + i])
}

// ---- a state

// Value v is in the domain of variable i. No method of a View, since it reads no table: putting back asks it with none.
pub fn is_live(active: u32, on: &[u16; 32], i: usize, v: usize) -> bool
    requires { Proper (sets active on.now) × (i < 32) }
    ensures { result ≡ (state_of (sets active on.now)).live i v }
{
    if v < 16 { on[i].has(v) } else { false }
}

// ---- a table and a state

// A filled table, and a state of the problem that it holds: what every rule's test reads.
#[derive(Clone, Copy)]
pub struct View<'a> {
    pub table: &'a [u16],
    pub state: &'a Masks,
    pub ghost ready: { Ready table.now state.now },
}

impl<'a> View<'a> {
    fn some_value(self, l: usize) -> bool
        requires { l < 32 }
        ensures { result ≡ imp (bit self.entry.state.now.active l) (any_live (held self.entry.table.now) (state_of self.entry.state.now) l (λ c. true)) }
    {
        !self.state.active.has(l) | (self.state.domains[l] != 0)
    }

    // No item in is without a setting on.
    pub fn none_empty(self) -> bool
        ensures { result ≡ none_empty (held self.entry.table.now) (state_of self.entry.state.now) }
    {
        for l in 0..32 {
            if !self.some_value(l) {
                return false;
            }
        }
        true
    }
}

// ---- the first state

// The domain of i in the first state, of a table of n variables.
fn full_domain(t: &[u16], n: usize, i: usize) -> u16
    requires { RowTable t.now × (n ≡ (held t.now).n) × (i < 32) }
    ensures { result ≡ mask_of 16 ((full (held t.now)).live i) }
{
    if i < n { u16::below(t[i] as usize) } else { 0 }
}

// The first state: every variable active, every value in its domain.
pub fn full_masks(t: &[u16]) -> Masks
    requires { RowTable t.now }
    ensures { result ≡ masks_of (full (held t.now)) }
{
    let n = variables(t);
    let mut m = problem::empty_masks();
    m.active = u32::below(n);
    for i in 0..32 {
        m.domains[i] = full_domain(t, n, i);
    }
    m
}
