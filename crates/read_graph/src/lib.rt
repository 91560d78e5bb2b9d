// Reading a colouring file in one pass: digits, lines, and what the lines come to.
#![tactic(auto)]

ghost use Rattle.std.specs.Prelude.{◌≡◌, ◌+◌, ◌-◌, ◌*◌, ◌<◌, ◌≤◌, length, get_or, drop};
ghost use Rattle.graph.specs.Graph.{is_outside, file_limit, begins as begins_with};
ghost use Rattle.graph.specs.Scan.{line_in, stepped};
ghost use Rattle.graph.specs.declared.Line.TheVariants.{Size, Edge};
ghost use Rattle.read_graph.specs.Parts.{Place, DigitsAt, FieldAt, PairAt, Passing, ends_in_four, ends_in_eight, Other, LineAt, Few, Inside, Marked, Unmarked, LinesRead, GraphAt};

use graph::{GraphRead, Line, TurnedAway};

// The number of some digits, and the place after them; of a field, the place after the byte that ends it.
#[derive(Clone, Copy)]
pub struct Digits {
    pub value: usize,
    pub next: usize,
}

// Two numbers that end a line, and the place after them and its newline.
#[derive(Clone, Copy)]
pub struct Pair {
    pub first: usize,
    pub second: usize,
    pub next: usize,
}

// A line, and the place after it and its newline, one past the end where a last line has none.
#[derive(Clone, Copy)]
pub struct LineRead {
    pub line: Line,
    pub next: usize,
}

// ---- bytes

// The byte at k. The file ends as a line does: past its end stands a newline, and not the 0 of `buffers::byte_at`.
fn byte_at(f: &[u8], k: usize) -> u8
    ensures { result ≡ get_or f.now k 10 }
{
    if k < f.len() { f[k] } else { 10 }
}

// The digits at p: nine of them are a number, and a tenth tells that there are too many.
fn digits_at(f: &[u8], p: usize) -> Digits
    requires { Place f.now p }
    ensures { DigitsAt f.now p result }
{
    let mut value: usize = 0;
    for k in 0..10 {
        let b = byte_at(f, p + k);
        if !b.is_ascii_digit() {
            return Digits { value, next: p + k };
        }
        value = value * 10 + (b - 48) as usize;
    }
    Digits {
        value,
        next: p + 10,
    }
}

// The number of one to nine digits at p that the byte `end` follows, and the place after that byte; none where no such number stands.
pub fn field_at(f: &[u8], p: usize, end: u8) -> Option<Digits>
    requires { Place f.now p }
    ensures { FieldAt f.now p end result }
{
    let d = digits_at(f, p);
    let q = d.next;
    if q == p {
        return None;
    }
    if 9 < q - p {
        return None;
    }
    if byte_at(f, q) != end {
        return None;
    }
    Some(Digits {
        value: d.value,
        next: q + 1,
    })
}

// ---- lines

// Two numbers, a space between them, that fill the rest of the line from p.
fn pair_at(f: &[u8], p: usize) -> Result<Pair, TurnedAway>
    requires { Place f.now p }
    ensures { PairAt f.now p result }
{
    let a = field_at(f, p, 32).ok_or(TurnedAway)?;
    let b = field_at(f, a.next, 10).ok_or(TurnedAway)?;
    Ok(Pair {
        first: a.value,
        second: b.value,
        next: b.next,
    })
}

// Whether one of four bytes ends a line, and one of eight, which are four and four: no branch is made between them.
fn ends_in_four(f: &[u8], k: usize) -> bool
    requires { k + 4 ≤ length f.now }
    ensures { result ≡ ends_in_four f.now k }
{
    ((f[k] == 10) | (f[k + 1] == 10)) | ((f[k + 2] == 10) | (f[k + 3] == 10))
}

fn ends_in_eight(f: &[u8], k: usize) -> bool
    requires { k + 8 ≤ length f.now }
    ensures { result ≡ ends_in_eight f.now k }
{
    ends_in_four(f, k) | ends_in_four(f, k + 4)
}

// Passes bytes of the line that p stands in, eight at a time: a byte at a time, as `for` and `position` go, a long comment costs three times as
// much.
fn pass_eights(f: &[u8], p: usize) -> usize
    requires { Place f.now p }
    ensures { Passing f.now p result }
{
    let mut k = p;
    while k + 8 <= f.len() {
        if ends_in_eight(f, k) {
            return k;
        }
        k += 8;
    }
    k
}

// Where the line that p stands in ends: at its newline, or with the file.
fn line_end(f: &[u8], p: usize) -> usize
    requires { Place f.now p }
    ensures { result ≡ p + length (line_in (drop p f.now)) }
{
    for k in pass_eights(f, p)..f.len() {
        if f[k] == 10 {
            return k;
        }
    }
    f.len()
}

// Whether the word stands at p.
fn begins(f: &[u8], p: usize, w: &[u8]) -> bool
    requires { Place f.now p }
    ensures { result ≡ begins_with w.now (drop p f.now) }
{
    f[p..].starts_with(w)
}

// The line at p that begins with neither `c` nor `e`: a `p` line, or a bad one.
fn size_line(f: &[u8], p: usize) -> Result<LineRead, TurnedAway>
    requires { Place f.now p × Other f.now p }
    ensures { LineAt f.now p result }
{
    if !begins(f, p, b"p edge ") {
        return Err(TurnedAway);
    }
    let q = pair_at(f, p + 7)?;
    Ok(LineRead {
        line: Line::Size {
            vertices: q.first,
            edges: q.second,
        },
        next: q.next,
    })
}

// The line at p that begins with `e`: an `e` line, or a bad one.
fn edge_line(f: &[u8], p: usize) -> Result<LineRead, TurnedAway>
    requires { Place f.now p × (get_or f.now p 10 ≡ 101) }
    ensures { LineAt f.now p result }
{
    if byte_at(f, p + 1) != 32 {
        return Err(TurnedAway);
    }
    let q = pair_at(f, p + 2)?;
    Ok(LineRead {
        line: Line::Edge {
            from: q.first,
            to: q.second,
        },
        next: q.next,
    })
}

// The line at p. A bad one turns the file away.
fn line_at(f: &[u8], p: usize) -> Result<LineRead, TurnedAway>
    requires { Place f.now p × (p < length f.now) }
    ensures { LineAt f.now p result }
{
    let b = f[p];
    if b == 101 {
        return edge_line(f, p);
    }
    if b == 99 {
        return Ok(LineRead {
            line: Line::Comment,
            next: line_end(f, p) + 1,
        });
    }
    size_line(f, p)
}

// ---- what the lines come to

// Whether the vertex a is outside 1 to v.
fn is_outside(v: usize, a: usize) -> bool
    ensures { result ≡ is_outside v a }
{
    (a < 1) | (v < a)
}

// After a `p` line, which is the only one.
#[tactic(auto, unfolding(graph::specs::Scan::stepped))]
fn with_size(
    g: Option<GraphRead>,
    vertices: usize,
    edges: usize,
) -> Result<Option<GraphRead>, TurnedAway>
    ensures { result ≡ stepped g (Size vertices edges) }
{
    match g {
        None => Ok(Some(GraphRead {
            vertices,
            edges,
            lines: 0,
            loops: false,
        })),
        Some(_) => Err(TurnedAway),
    }
}

// After an `e` line, which stands after the `p` line and names vertices in the range that this states.
#[tactic(auto, unfolding(graph::specs::Scan::stepped))]
fn with_edge(g: Option<GraphRead>, a: usize, b: usize) -> Result<Option<GraphRead>, TurnedAway>
    requires { Few file_limit g }
    ensures { result ≡ stepped g (Edge a b) }
{
    let r = g.ok_or(TurnedAway)?;
    if is_outside(r.vertices, a) | is_outside(r.vertices, b) {
        return Err(TurnedAway);
    }
    Ok(Some(GraphRead {
        lines: r.lines + 1,
        loops: r.loops | (a == b),
        ..r
    }))
}

// After one more line.
#[tactic(auto, unfolding(graph::specs::Scan::stepped))]
fn step(g: Option<GraphRead>, l: Line) -> Result<Option<GraphRead>, TurnedAway>
    requires { Few file_limit g }
    ensures { result ≡ stepped g l }
{
    match l {
        Line::Comment => Ok(g),
        Line::Size { vertices, edges } => with_size(g, vertices, edges),
        Line::Edge { from, to } => with_edge(g, from, to),
        Line::Bad => Err(TurnedAway),
    }
}

// Where the marks have the vertices a and b.
fn place_of(a: usize, b: usize) -> usize
    requires { Inside a b }
    ensures at { result ≡ 32 * (a - 1) + (b - 1) }
    ensures within { result < 1024 }
{
    32 * (a - 1) + (b - 1)
}

// Marks the vertices a and b as joined, where both are among the first 32.
fn mark_pair(near: &mut [u8], a: usize, b: usize)
    requires { length near.old ≡ 1024 }
    ensures { Marked (Edge a b) near.old near.new }
{
    if is_outside(32, a) | is_outside(32, b) {
        return;
    }
    near[place_of(a, b)] = 1;
    near[place_of(b, a)] = 1;
}

// Marks what a line joins.
fn mark(near: &mut [u8], l: Line)
    requires { length near.old ≡ 1024 }
    ensures { Marked l near.old near.new }
{
    if let Line::Edge { from, to } = l {
        mark_pair(near, from, to);
    }
}

// Reads the lines of a file that is not too long, one after the other. Without a `p` line nothing is found, and the file is turned away.
fn read_lines(f: &[u8], near: &mut [u8]) -> Result<GraphRead, TurnedAway>
    requires { (length f.now ≤ file_limit) × Unmarked near.old }
    ensures { LinesRead f.now near.new result }
{
    let mut g = None;
    let mut p: usize = 0;
    while p < f.len() {
        let l = line_at(f, p)?;
        g = step(g, l.line)?;
        mark(near, l.line);
        p = l.next;
    }
    g.ok_or(TurnedAway)
}

// Reads a colouring file, and marks at 32 i + j the items i and j that an edge joins.
pub fn read_graph(f: &[u8], near: &mut [u8]) -> Result<GraphRead, TurnedAway>
    requires { Unmarked near.old }
    ensures { GraphAt f.now near.new result }
{
    if 65536 < f.len() {
        return Err(TurnedAway);
    }
    read_lines(f, near)
}
