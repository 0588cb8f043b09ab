// From the program's bytes to the text that it prints: the line is read, the grid is glued, and six things are told of it.
// The port added it, with the program.
//
// A grid that is taken has at most 4,096 cells of four corners, so CORNERS numbers hold its words, its cells or its order. LISTED hold its edges (six a cell, two
// numbers each) or its border (four facets a cell, three numbers each). With lists of these lengths no call meets 12.
#![tactic(auto)]

ghost use Rattle.std.specs.Prelude.{◌≡◌, length};
ghost use Rattle.refusal.specs.Says.{fine};
ghost use Rattle.refusal.specs.Told.{count_of};
ghost use Rattle.complex.specs.Skeleton.{edges_of, border_of};
ghost use Rattle.quotient.specs.Shape.{check_of, vertices_of};
ghost use Rattle.grid_mesh.specs.Words.{glued_cells};
ghost use Rattle.bandsum_sums.specs.Promise.{SidesOf, SumsOf, Printed};
ghost use Rattle.bandsum_sums.specs.Work.{sides_as, Triangulates, Fitting, Glued, HasWords, HasCells, Tells};

use bandsum_lines::Summary;
use grid_order::Triangulated;
use orientation::Coherence;
use quotient::Grid;
use refusal::Refusal;
use text::Text;

// Bandsum's own limits: the same numbers as `band_dimension` and `band_cells`.
const DIMENSION: usize = 3;

const CELLS: usize = 4096;

pub const CORNERS: usize = CELLS * (DIMENSION + 1);

pub const LISTED: usize = DIMENSION * CORNERS;

// The keys of an order and of edges.
pub const ORDER_KEYS: usize = LISTED + 2 * CORNERS;

pub const EDGE_KEYS: usize = 2 * LISTED;

// The keys of the facets' records.
pub const RECORD_KEYS: usize = 5 * CORNERS;

// The number that is counted.
fn number(said: Result<u32, Refusal>) -> u32
    ensures { result ≡ count_of said }
{
    said.unwrap_or(0)
}

// How many cells the grid has, and whether an order of them is handed out; 1, 9, 8, 3, 6 and 7 are refused.
fn triangulated(grid: Grid) -> Result<Triangulated, Refusal>
    ensures { Triangulates grid result }
{
    let mut cells = [0u32; CORNERS];
    let mut order = [0u32; CORNERS];
    let mut keys = [0u32; ORDER_KEYS];
    let mut rows = [0u32; CORNERS];
    let mut spare = [0u32; CORNERS];
    let mut counts = [0u32; CORNERS];
    grid_order::triangulate_ordered(
        grid,
        &mut cells,
        &mut order,
        &mut keys,
        &mut rows,
        &mut spare,
        &mut counts,
    )
}

// Writes the grid's words, and says how many numbers they have.
fn write_words(grid: Grid, words: &mut [u32]) -> usize
    requires { Fitting grid words.old }
    ensures { Glued grid result words.new }
{
    let mut keys = [0u32; LISTED];
    let mut rows = [0u32; CORNERS];
    let mut spare = [0u32; CORNERS];
    let mut counts = [0u32; CORNERS];
    let said = grid_mesh::cell_words(grid, words, &mut keys, &mut rows, &mut spare, &mut counts);
    number(said) as usize * (grid.d as usize + 1)
}

// How many edges the cells of the grid's words have.
fn edges(grid: Grid, words: &[u32]) -> u32
    requires { HasWords grid words.now }
    ensures { result ≡ length (edges_of (glued_cells grid)) }
{
    let mut edges = [0u32; LISTED];
    let mut keys = [0u32; EDGE_KEYS];
    let mut rows = [0u32; LISTED];
    let mut spare = [0u32; LISTED];
    let mut counts = [0u32; LISTED];
    let said = skeleton::edges(
        grid.d,
        words,
        &mut edges,
        &mut keys,
        &mut rows,
        &mut spare,
        &mut counts,
    );
    number(said)
}

// How many facets lie in one cell of the grid's words.
fn border(grid: Grid, words: &[u32]) -> u32
    requires { HasWords grid words.now }
    ensures { result ≡ length (border_of grid.d (glued_cells grid)) }
{
    let mut border = [0u32; LISTED];
    let mut keys = [0u32; LISTED];
    let mut rows = [0u32; CORNERS];
    let mut spare = [0u32; CORNERS];
    let mut counts = [0u32; CORNERS];
    let said = skeleton::border(
        grid.d,
        words,
        &mut border,
        &mut keys,
        &mut rows,
        &mut spare,
        &mut counts,
    );
    number(said)
}

// How many vertices the grid has.
fn vertices(grid: Grid) -> u32
    requires { check_of grid ≡ fine }
    ensures { result ≡ vertices_of grid }
{
    number(grid.nvertices())
}

// The sides, by what is said of the signs: 2 with signs, 1 where there are none.
fn by_signs(said: Result<Coherence, Refusal>) -> u32
    ensures { result ≡ sides_as said }
{
    match said {
        Ok(Coherence::Signs(_, _)) => 2,
        Ok(Coherence::OneSided(_)) => 1,
        Err(_) => 0,
    }
}

// 2 where coherent signs of the grid's cells exist, else 1.
fn sides(grid: Grid, words: &[u32]) -> u32
    requires { HasWords grid words.now }
    ensures { SidesOf grid result }
{
    let mut signs = [0i32; CORNERS];
    let mut keys = [0u32; RECORD_KEYS];
    let mut rows = [0u32; CORNERS];
    let mut spare = [0u32; CORNERS];
    let mut counts = [0u32; CORNERS];
    let said = orientation::orientation(
        grid.d,
        words,
        &mut signs,
        &mut keys,
        &mut rows,
        &mut spare,
        &mut counts,
    );
    by_signs(said)
}

// The six things of a grid with as many cells, and an order or none.
fn told(grid: Grid, cells: u32, ordered: bool) -> Summary
    requires { HasCells grid cells }
    ensures { Tells grid ordered result }
{
    let mut words = [0u32; CORNERS];
    let len = write_words(grid, &mut words);
    let edges = edges(grid, &words[..len]);
    let border = border(grid, &words[..len]);
    let sides = sides(grid, &words[..len]);
    Summary {
        cells,
        vertices: vertices(grid),
        edges,
        border,
        sides,
        ordered,
    }
}

// The six things of a grid: its glued cells, vertices and edges, the facets in one cell, its sides, and whether an order is handed out. Refused: 1, 9, 8, 3, 6, 7.
pub fn sums(grid: Grid) -> Result<Summary, Refusal>
    ensures { SumsOf grid result }
{
    match triangulated(grid)? {
        Triangulated::Ordered(cells) => Ok(told(grid, cells, true)),
        Triangulated::Unordered(cells) => Ok(told(grid, cells, false)),
    }
}

// What the program prints for the bytes that it read: the six lines, or the one line of a refusal.
pub fn printed(bytes: &[u8]) -> Text
    ensures { Printed bytes.now result }
{
    match bandsum_line::read(bytes) {
        Err(unread) => bandsum_lines::refused(unread.number()),
        Ok(grid) => match sums(grid) {
            Err(why) => bandsum_lines::refused(why.number()),
            Ok(told) => bandsum_lines::lines(told),
        },
    }
}
