// One line in, a map file or the one line of a refusal out.
//
// Whether the band is drawn is asked of the call itself with no bytes lent: where it says 12 for the bytes, nothing else is amiss. The file may have a megabyte, so it is
// then printed part by part, a feature at a time (proofs of `file_geojson_laws`: the parts one after another are the file). The buffer of the line holds the longest one
// and one byte more: what follows cannot change the answer, and is not read.
#![tactic(auto)]

ghost use Rattle.std.specs.Prelude.{◌≡◌, true, ◌<◌};
ghost use Rattle.refusal.specs.Says.{fine};
ghost use Rattle.quotient.specs.Shape.{check_of, cell_count};
ghost use Rattle.file_geojson.specs.Kind.{band_grid, latitudes_fit, Mapped};

use file_geojson::{file, kind};
use quotient::Grid;
use refusal::{Refusal, Room};

// The standard output.
const STDOUT_FILENO: i32 = 1;

const ENOUGH: usize = bandmap_line::LONGEST + 1;

// Working lists for 4,096 cells of three dimensions.
const CORNERS: usize = 16384;

const KEYS: usize = 49152;

// Prints the first n bytes.
fn print(n: usize, bytes: &[u8]) {
    if n <= bytes.len() {
        io::write_all(STDOUT_FILENO, &bytes[..n]);
    }
}

// Prints `refused` and the number.
fn refused(why: Refusal) {
    let mut line = [0u8; 32];
    let a = file_writing::word(&mut line, 0, b"refused ");
    let b = file_writing::number(&mut line, a, why.number());
    let c = file_writing::word(&mut line, b, b"\n");
    print(c, &line);
}

// Prints part x of the file.
fn feature(grid: Grid, low: u32, high: u32, x: usize)
    requires { Mapped grid low high × (x < cell_count grid) }
{
    let mut part = [0u8; 512];
    let n = file::part(grid, low, high, x, &mut part);
    print(n, &part);
}

// Prints the file, feature by feature.
fn features(grid: Grid, low: u32, high: u32)
    requires { Mapped grid low high }
{
    for x in 0..grid_words::cells(grid) {
        feature(grid, low, high, x);
    }
    print(3, b"]}\n");
}

// Prints the band of a grid and two latitudes that are taken.
fn drawn(grid: Grid, south: i32, north: i32)
    requires { (check_of grid ≡ fine) × (band_grid grid ≡ true) × (latitudes_fit south north ≡ true) }
{
    let low = kind::from_pole(south);
    let high = kind::from_pole(north);
    features(grid, low, high);
}

// Asks everything but the bytes, and prints the band or the refusal.
fn asked(
    grid: Grid,
    south: i32,
    north: i32,
    keys: &mut [u32],
    rows: &mut [u32],
    spare: &mut [u32],
    counts: &mut [u32],
)
    requires { check_of grid ≡ fine }
{
    let d = grid.d as usize;
    let need = complex::need(d, grid_words::cells(grid) * (d + 1));
    let have = Room {
        keys: keys.len(),
        rows: rows.len(),
        spare: spare.len(),
        counts: counts.len(),
    };
    if !refusal::has_room(need, have) {
        refused(Refusal::TooShort);
        return;
    }
    let mut none = [0u8; 0];
    match file_geojson::geojson(grid, south, north, &mut none, keys, rows, spare, counts) {
        Err(Refusal::TooShort) => drawn(grid, south, north),
        Err(why) => refused(why),
        Ok(_) => {}
    }
}

// Checks the grid, and lends the working lists.
fn map(grid: Grid, south: i32, north: i32) {
    if let Err(why) = grid.check() {
        refused(why);
        return;
    }
    let mut keys = [0u32; KEYS];
    let mut rows = [0u32; CORNERS];
    let mut spare = [0u32; CORNERS];
    let mut counts = [0u32; CORNERS];
    asked(
        grid,
        south,
        north,
        &mut keys,
        &mut rows,
        &mut spare,
        &mut counts,
    );
}

fn main() {
    let mut buffer = [0u8; ENOUGH];
    let n = io::read_full(0, &mut buffer);
    match bandmap_line::read(&buffer[..n]) {
        Ok(line) => map(line.grid, line.south, line.north),
        Err(why) => refused(why),
    }
}
