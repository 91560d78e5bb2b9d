// The sheet of a colouring graph: the file is read, the table of its colouring problem filled, and the sheet written.
#![tactic(auto)]

ghost use Rattle.colour.specs.Call.{colour_call};
ghost use Rattle.std.specs.Prelude.{◌≡◌, ◌*◌, ◌<◌, ◌≤◌, length};
ghost use Rattle.problem.specs.Held.{table_length, Located, Filled};
ghost use Rattle.graph.specs.Scan.{is_marked};
ghost use Rattle.table.specs.Parts.{Wrote, Blank};
ghost use Rattle.table.specs.Filling.{block_here, PlaceEntered, EnteredTo};
ghost use Rattle.colour.specs.Colour.{colour_number, out_of_range, colour_job};
ghost use Rattle.colour.specs.declared.ColourRefusal.TheVariants.{File, Buffer};
ghost use Rattle.colour.specs.Parts.{marked_problem, Ranged, entry_size, edge_rows, write_job, graph_job};

use bounded::Set;
use compose::TooShort;
use graph::{GraphRead, TurnedAway};

// Why a colouring file is turned away: one case for each number of the format's table.
#[derive(Clone, Copy, PartialEq, Eq, Debug)]
pub enum ColourRefusal {
    File,
    Loop,
    Count,
    Range,
    Buffer,
}

// The format's number for a refusal.
impl From<ColourRefusal> for u8 {
    ghost from_gives = { λ r n. n ≡ colour_number r };

    fn from(r: ColourRefusal) -> u8 {
        match r {
            ColourRefusal::File => 21,
            ColourRefusal::Loop => 22,
            ColourRefusal::Count => 23,
            ColourRefusal::Range => 24,
            ColourRefusal::Buffer => 25,
        }
    }
}

// 21: the reader turns the file away.
impl From<TurnedAway> for ColourRefusal {
    ghost from_gives = { λ _ r. r ≡ File };

    fn from(_e: TurnedAway) -> ColourRefusal {
        Self::File
    }
}

// 25: the buffer is too short for the sheet.
impl From<TooShort> for ColourRefusal {
    ghost from_gives = { λ _ r. r ≡ Buffer };

    fn from(_e: TooShort) -> ColourRefusal {
        Self::Buffer
    }
}

// ---- the table

// A problem to write: the marks of the edges, how many vertices there are, and how many channels each has.
#[derive(Clone, Copy)]
struct Colouring<'a> {
    near: &'a [u8; 1024],
    vertices: usize,
    channels: usize,
    ghost ranged: { Ranged near.now vertices channels },
    ghost some: { 1 ≤ channels },
}

// The size of vertex i: each of the n has k channels.
fn size_word(n: usize, k: usize, i: usize) -> u16
    requires { k ≤ 16 }
    ensures { result ≡ entry_size n k i }
{
    if i < n { k as u16 } else { 0 }
}

// The sizes. The rest of the table is as it was.
fn fill_sizes(n: usize, k: usize, t: &mut [u16])
    requires { (length t.old ≡ table_length) × (k ≤ 16) }
    ensures { Wrote 32 t.old t.new 0 (entry_size n k) }
{
    for i in 0..32 {
        t[i] = size_word(n, k, i);
    }
}

// The block of an edge, the same for each: all channels but the row's own.
fn edge_rows(k: usize) -> [u16; 16]
    requires { k ≤ 16 }
    ensures { result ≡ edge_rows k }
{
    let all = u16::below(k);
    let mut rows = [0u16; 16];
    for a in 0..16 {
        rows[a] = all.without(a);
    }
    rows
}

// Whether place x = 32 i + j of the marks is that of an edge between two vertices i < j of the problem.
fn is_edge(g: &Colouring, x: usize) -> bool
    requires { x < 1024 }
    ensures { result ≡ block_here (is_marked g.now.near.now) g.now.vertices x }
{
    (x / 32 < x % 32) & ((x % 32 < g.vertices) & (g.near[x] == 1))
}

// Enters the block of the edge at place x, if there is one.
fn enter_place(g: &Colouring, x: usize, rows: &[u16; 16], t: &mut [u16])
    requires { (x < 1024) × Located t.old }
    ensures { PlaceEntered (is_marked g.now.near.now) (λ i j. rows.now) g.now.vertices x t.old t.new }
{
    if !is_edge(g, x) {
        return;
    }
    table::enter(t, x / 32, x % 32, rows);
}

// Enters the block of each edge. A pair without an edge has none.
fn enter_edges(g: &Colouring, rows: &[u16; 16], t: &mut [u16])
    requires { EnteredTo (is_marked g.now.near.now) (λ i j. rows.now) g.now.vertices 0 t.old t.old }
    ensures { EnteredTo (is_marked g.now.near.now) (λ i j. rows.now) g.now.vertices (32 * g.now.vertices) t.old t.new }
{
    for x in 0..32 * g.vertices {
        enter_place(g, x, rows, t);
    }
}

// Fills a table of all ones with the problem.
fn fill_table(g: &Colouring, t: &mut [u16])
    requires { Blank t.old }
    ensures { Filled (marked_problem g.now.near.now g.now.vertices g.now.channels) t.new }
{
    fill_sizes(g.vertices, g.channels, t);
    table::put_places(t);
    let rows = edge_rows(g.channels);
    enter_edges(g, &rows, t);
}

// ---- the job

// Writes the sheet of the problem.
fn write(g: &Colouring, sheet: &mut [u8]) -> Result<usize, ColourRefusal>
    ensures answer { result ≡ (write_job (marked_problem g.now.near.now g.now.vertices g.now.channels) sheet.old).answer }
    ensures buffer { sheet.new ≡ (write_job (marked_problem g.now.near.now g.now.vertices g.now.channels) sheet.old).buffer }
{
    let mut t = table::blank_table();
    fill_table(g, &mut t);
    Ok(compose::write_sheet(&t, 1, sheet)?)
}

// 24: the vertices are not 1 to 32, or the channels not 1 to 16.
fn out_of_range(v: usize, k: u64) -> bool
    ensures { result ≡ out_of_range v k }
{
    ((v < 1) | (32 < v)) | ((k < 1) | (16 < k))
}

// The job once the file is read: the tests after 21, over the whole file, and then the sheet.
fn colour_graph(
    near: &[u8; 1024],
    found: GraphRead,
    channels: u64,
    sheet: &mut [u8],
) -> Result<usize, ColourRefusal>
    ensures answer { result ≡ (graph_job near.now found channels sheet.old).answer }
    ensures buffer { sheet.new ≡ (graph_job near.now found channels sheet.old).buffer }
{
    if found.loops {
        return Err(ColourRefusal::Loop);
    }
    if found.lines != found.edges {
        return Err(ColourRefusal::Count);
    }
    if out_of_range(found.vertices, channels) {
        return Err(ColourRefusal::Range);
    }
    let g = Colouring {
        near,
        vertices: found.vertices,
        channels: channels as usize,
    };
    write(&g, sheet)
}

// Writes the sheet whose plans are the proper colourings of the graph of a file with so many channels: the bytes written, or the refusal.
pub fn colour(file: &[u8], channels: u64, sheet: &mut [u8]) -> Result<usize, ColourRefusal>
    ensures answer { result ≡ (colour_job file.now channels sheet.old).answer }
    ensures buffer { sheet.new ≡ (colour_job file.now channels sheet.old).buffer }
{
    let mut near = [0u8; 1024];
    let found = read_graph::read_graph(file, &mut near)?;
    colour_graph(&near, found, channels, sheet)
}

// ---- from C

// The sheet of a colouring graph. Bits 0-7: the refusal's number, 0 where the sheet was written; bits 8-31: the bytes written. A refused
// call writes nothing.
pub fn colour_call(file: &[u8], channels: u64, sheet: &mut [u8]) -> u64
    ensures answer { result ≡ (colour_call file.now channels sheet.old).answer }
    ensures sheet { sheet.new ≡ (colour_call file.now channels sheet.old).sheet }
{
    match colour(file, channels, sheet) {
        Ok(w) => 256 * w as u64,
        Err(r) => u8::from(r) as u64,
    }
}
