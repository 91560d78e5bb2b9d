// The types of a DIMACS graph colouring file: a line of it, what reading the file finds, and that the file is turned away.
#![tactic(auto)]

// A line of a colouring file: a comment, the `p` line (Size), an `e` line (Edge), or none of these forms. A bad line is a form of its own, since
// the specification's list of the lines has it at its place.
#[derive(Clone, Copy)]
pub enum Line {
    Comment,
    Size { vertices: usize, edges: usize },
    Edge { from: usize, to: usize },
    Bad,
}

// What reading a colouring file finds: what its `p` line states, how many `e` lines there are, and whether one is a loop. In a reader that has
// not come to the end they are those of the lines passed.
#[derive(Clone, Copy, PartialEq, Eq, Debug)]
pub struct GraphRead {
    pub vertices: usize,
    pub edges: usize,
    pub lines: usize,
    pub loops: bool,
}

// The file is turned away (21).
#[derive(Clone, Copy, PartialEq, Eq, Debug)]
pub struct TurnedAway;
