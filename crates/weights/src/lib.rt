// What the search for any plan goes by: which variable to branch on, by the values that it has left and by how often it failed. Nothing that
// is answered rests on it, so no contract says more than that an answer is a variable.
#![tactic(auto)]

ghost use Rattle.std.specs.Prelude.{◌≡◌, ◌<◌, ◌≤◌, IfSome};

use bounded::Set;

// The most that a value costs.
const COST: u16 = 2047;

// The weights of 32 variables: the more a variable failed, the less a value of it costs. Any words are weights: a search ends with its answer
// whatever they are, so the fields are public and there is no invariant.
#[derive(Clone, Copy)]
pub struct Weights {
    // what a value of each variable costs
    pub costs: [u16; 32],
    // 16 powers of 2, which the compiler is not to know: so it does the lanes of `marked` at once
    pub powers: [u16; 16],
    // how often each variable failed, counted from its degree
    pub tallies: [u32; 32],
    // what a value costs where its variable failed once
    pub scale: u32,
}

// 65535 for true, 0 for false.
fn flag(b: bool) -> u16 {
    if b { 65535 } else { 0 }
}

// 65535 where a set came down to at most one value, else 0.
pub fn came_down(was: u16, left: u16) -> u16 {
    flag((left != was) & (left & left.wrapping_sub(1) == 0))
}

// What a value costs of a variable that failed so often: from 1 on, so that fewer values always cost less, and up to COST, so that sixteen fit
// a word.
fn cost(scale: u32, failed: u32) -> u16 {
    if failed == 0 {
        COST
    } else {
        (scale / failed).clamp(1, COST as u32) as u16
    }
}

// What it costs to branch on a variable with this set: the most where it has at most one value.
fn key(set: u16, cost: u16) -> u16 {
    if set & set.wrapping_sub(1) == 0 {
        65535
    } else {
        (set.count_ones() as u16) * (cost % (COST + 1))
    }
}

// The lowest marked variable whose set is empty.
fn emptied(on: &[u16; 32], marks: u32) -> Option<usize>
    ensures { IfSome result (λ j. j < 32) }
{
    let mut rest = marks;
    while rest != 0 {
        let j = rest.lowest();
        if on[j] == 0 {
            return Some(j);
        }
        rest = rest.without(j);
    }
    None
}

impl Weights {
    // At first each variable counts as failed as often as its degree.
    pub fn new(degrees: &[u16; 32]) -> Self {
        let mut powers = [0u16; 16];
        for (u, power) in powers.iter_mut().enumerate() {
            *power = 1 << u;
        }
        let mut weights = Weights {
            costs: [COST; 32],
            powers,
            tallies: [0; 32],
            scale: COST as u32,
        };
        for (tally, degree) in weights.tallies.iter_mut().zip(degrees) {
            *tally = *degree as u32;
        }
        weights.put_costs();
        weights
    }

    // The variables whose lanes are not 0.
    pub fn marked(&self, lanes: &[u16; 32]) -> u32 {
        let mut low: u16 = 0;
        let mut high: u16 = 0;
        for j in 0..16 {
            low |= lanes[j] & self.powers[j];
            high |= lanes[16 + j] & self.powers[j];
        }
        (low as u32) | ((high as u32) << 16)
    }

    // The variables with one value.
    pub fn fixed(&self, on: &[u16; 32]) -> u32 {
        let mut lanes = [0u16; 32];
        for j in 0..32 {
            lanes[j] = came_down(0, on[j]);
        }
        self.marked(&lanes)
    }

    // Meeting the others with k emptied one that is marked: it weighs on both.
    pub fn failed(&mut self, on: &[u16; 32], k: usize, marks: u32)
        requires { k < 32 }
    {
        self.weigh(k);
        self.weigh(emptied(on, marks).unwrap_or(0));
    }

    // The variable that it costs least to branch on.
    pub fn cheapest(&self, on: &[u16; 32]) -> usize
        ensures { result < 32 }
    {
        let keys = self.keys(on);
        let least = least(&keys);
        let mut lanes = [0u16; 32];
        for j in 0..32 {
            lanes[j] = flag(keys[j] == least);
        }
        self.marked(&lanes).lowest() % 32
    }

    fn keys(&self, on: &[u16; 32]) -> [u16; 32] {
        let mut keys = [0u16; 32];
        for j in 0..32 {
            keys[j] = key(on[j], self.costs[j]);
        }
        keys
    }

    // Variable k failed once more. The scale grows with the tally.
    fn weigh(&mut self, k: usize)
        requires { k < 32 }
    {
        let failed = self.tallies[k].wrapping_add(1);
        self.tallies[k] = failed;
        self.costs[k] = cost(self.scale, failed);
        if self.scale / 32 < failed {
            self.rescale();
        }
    }

    // All costs anew, by a scale twice as great: so the costs of variables that failed often stay apart.
    fn rescale(&mut self) {
        if self.scale < 1073741824 {
            self.scale *= 2;
            self.put_costs();
        }
    }

    // The cost of each variable by its tally.
    fn put_costs(&mut self) {
        for (value, tally) in self.costs.iter_mut().zip(&self.tallies) {
            *value = cost(self.scale, *tally);
        }
    }
}

// The least of 32 numbers.
fn least(keys: &[u16; 32]) -> u16 {
    let mut least = u16::MAX;
    for j in 0..32 {
        least = least.min(keys[j]);
    }
    least
}
