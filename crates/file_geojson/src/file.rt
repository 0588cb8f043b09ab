// The file, part by part: every call takes a place in the byte list and says the next one.
ghost use Rattle.std.specs.Prelude.{◌≡◌, [], ◌∷◌, ◌+◌, ◌<◌, ◌≤◌};
ghost use Rattle.quotient.specs.Shape.{cell_count};
ghost use Rattle.grid_words.specs.WorkNumbered.{cell_no};
ghost use Rattle.file_writing.specs.Wrote.{farthest, Wrote};
ghost use Rattle.file_geojson.specs.Degrees.{fraction_of, degrees_of};
ghost use Rattle.file_geojson.specs.File.{longitude_of, latitude_of, position_of, ring_corners, ring_of, feature_of, collection_of};
ghost use Rattle.file_geojson.specs.Kind.{Mapped};
ghost use Rattle.file_geojson.specs.Work.{far_angle, part_of};

use crate::number;
use quotient::Grid;

// m / den degrees, to six decimals.
fn fraction(to: &mut [u8], at: usize, m: u64, den: u64) -> usize
    requires { (at + 21 ≤ farthest) × (m ≤ far_angle) × (0 < den) × (den ≤ far_angle) }
    ensures { Wrote (fraction_of m den) at to.old result to.new }
{
    file_writing::six_decimals(to, at, (2 * (m * 1000000) + den) / (2 * den))
}

// (a - b) / den degrees, to six decimals.
fn degrees(to: &mut [u8], at: usize, a: u64, b: u64, den: u64) -> usize
    requires { (at + 22 ≤ farthest) × (a ≤ far_angle) × (b ≤ far_angle) × (0 < den) × (den ≤ far_angle) }
    ensures { Wrote (degrees_of a b den) at to.old result to.new }
{
    if a < b {
        let whole = file_writing::byte(to, at, b'-');
        return fraction(to, whole, b - a, den);
    }
    fraction(to, at, a - b, den)
}

// The longitude of grid point v.
fn longitude(grid: Grid, low: u32, high: u32, v: u32, to: &mut [u8], at: usize) -> usize
    requires { Mapped grid low high × (at + 22 ≤ farthest) }
    ensures { Wrote (longitude_of grid v) at to.old result to.new }
{
    let axis = grid.axis(0);
    let n = axis.count as u64;
    let i = grid.coordinate(v, 0) as u64;
    degrees(to, at, 360 * i, 180 * n, n)
}

// The latitude of grid point v.
fn latitude(grid: Grid, low: u32, high: u32, v: u32, to: &mut [u8], at: usize) -> usize
    requires { Mapped grid low high × (at + 22 ≤ farthest) }
    ensures { Wrote (latitude_of grid low high v) at to.old result to.new }
{
    let axis = grid.axis(1);
    let n = axis.count as u64;
    let j = grid.coordinate(v, 1) as u64;
    let up = low as u64 * n + (high - low) as u64 * j;
    degrees(to, at, up, 90 * n, n)
}

// The position of grid point v.
fn position(grid: Grid, low: u32, high: u32, v: u32, to: &mut [u8], at: usize) -> usize
    requires { Mapped grid low high × (at + 47 ≤ farthest) }
    ensures { Wrote (position_of grid low high v) at to.old result to.new }
{
    let first = file_writing::byte(to, at, b'[');
    let comma = longitude(grid, low, high, v, to, first);
    let second = file_writing::byte(to, comma, b',');
    let end = latitude(grid, low, high, v, to, second);
    file_writing::byte(to, end, b']')
}

// A comma and the position of grid point v.
fn next_position(grid: Grid, low: u32, high: u32, v: u32, to: &mut [u8], at: usize) -> usize
    requires { Mapped grid low high × (at + 48 ≤ farthest) }
    ensures { Wrote (44 ∷ position_of grid low high v) at to.old result to.new }
{
    let place = file_writing::byte(to, at, b',');
    position(grid, low, high, v, to, place)
}

// The ring from a over b and c back to a.
fn ring(grid: Grid, low: u32, high: u32, a: u32, b: u32, c: u32, to: &mut [u8], at: usize) -> usize
    requires { Mapped grid low high × (at + 200 ≤ farthest) }
    ensures { Wrote (ring_of grid low high (a ∷ b ∷ c ∷ a ∷ [])) at to.old result to.new }
{
    let first = file_writing::byte(to, at, b'[');
    let second = position(grid, low, high, a, to, first);
    let third = next_position(grid, low, high, b, to, second);
    let fourth = next_position(grid, low, high, c, to, third);
    let end = next_position(grid, low, high, a, to, fourth);
    file_writing::byte(to, end, b']')
}

// The ring of cell x, counterclockwise.
fn cell_ring(grid: Grid, low: u32, high: u32, x: usize, to: &mut [u8], at: usize) -> usize
    requires { Mapped grid low high × (at + 200 ≤ farthest) }
    ensures { Wrote (ring_of grid low high (ring_corners (cell_no grid x))) at to.old result to.new }
{
    let a = grid_words::corner(grid, x, 0) as u32;
    let b = grid_words::corner(grid, x, 1) as u32;
    let c = grid_words::corner(grid, x, 2) as u32;
    if b == a + 1 {
        return ring(grid, low, high, a, b, c, to, at);
    }
    ring(grid, low, high, a, c, b, to, at)
}

// The feature of cell x.
fn feature(grid: Grid, low: u32, high: u32, x: usize, to: &mut [u8], at: usize) -> usize
    requires { Mapped grid low high × (x < cell_count grid) × (at + 400 ≤ farthest) }
    ensures { Wrote (feature_of grid low high (cell_no grid x)) at to.old result to.new }
{
    let cell = number::mesh_number(grid, x) as u32;
    let id = file_writing::word(to, at, b"{\"type\":\"Feature\",\"id\":");
    let properties = file_writing::number(to, id, cell);
    let again = file_writing::word(to, properties, b",\"properties\":{\"cell\":");
    let geometry = file_writing::number(to, again, cell);
    let first = file_writing::word(
        to,
        geometry,
        b"},\"geometry\":{\"type\":\"Polygon\",\"coordinates\":[",
    );
    let end = cell_ring(grid, low, high, x, to, first);
    file_writing::word(to, end, b"]}}")
}

// Part x of the file, from the start of the byte list on: feature x after the opening, where it is the first, and else after its comma. For crates above, which print
// the file part by part.
pub fn part(grid: Grid, low: u32, high: u32, x: usize, to: &mut [u8]) -> usize
    requires { Mapped grid low high × (x < cell_count grid) }
    ensures { Wrote (part_of grid low high x) 0 to.old result to.new }
{
    if x == 0 {
        let first = file_writing::word(to, 0, b"{\"type\":\"FeatureCollection\",\"features\":[");
        return feature(grid, low, high, x, to, first);
    }
    let first = file_writing::byte(to, 0, b',');
    feature(grid, low, high, x, to, first)
}

// The whole file, from the start of the byte list on.
pub(crate) fn collection(grid: Grid, low: u32, high: u32, to: &mut [u8]) -> usize
    requires { Mapped grid low high }
    ensures { Wrote (collection_of grid low high) 0 to.old result to.new }
{
    let first = file_writing::word(to, 0, b"{\"type\":\"FeatureCollection\",\"features\":[");
    let mut at = feature(grid, low, high, 0, to, first);
    let count = grid_words::cells(grid);
    for x in 1..count {
        at = file_writing::byte(to, at, b',');
        at = feature(grid, low, high, x, to, at);
    }
    file_writing::word(to, at, b"]}\n")
}
