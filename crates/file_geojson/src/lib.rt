// The band of a grid as a map file: RFC 7946 GeoJSON, one polygon for each cell, for a grid of two dimensions whose axis 0 is periodic and whose axis 1 is open. The
// port added it (document 02, K1).
//
// The grid points before gluing are drawn: column 0 at longitude -180, the last column at 180, row 0 at the southern latitude, the last row at the northern one. So a
// cell that ends at the seam is written up to 180, and no ring crosses it. Inside, latitudes are counted in whole degrees from the South Pole: nothing is signed.
//
// The file is measured by writing it into no bytes at all, and then written by the same calls (crate `file_writing`). In the order of the modules:
//   kind     refusals 18 and 19: `is_band`, `latitudes_fit`
//   number   the mesh's number of a cell, which its feature has as id
//   file     the file, part by part: an angle, a position, a ring, a feature, the collection
#![tactic(auto)]

pub mod file;
pub mod kind;
mod number;

ghost use Rattle.std.specs.Prelude.{◌≡◌};
ghost use Rattle.refusal.specs.Says.{fine};
ghost use Rattle.refusal.specs.Lent.{lengths, Roomy};
ghost use Rattle.quotient.specs.Shape.{check_of};
ghost use Rattle.grid_mesh.specs.Words.{grid_need};
ghost use Rattle.file_geojson.specs.Promise.{GeoJson};
ghost use Rattle.file_geojson.specs.Work.{Asked, Ended};

use quotient::Grid;
use refusal::{Refusal, Room};

// Whether a facet of the grid's cells lies in three or more of them. What is needed of the working lists is zero afterwards.
fn is_crowded(
    grid: Grid,
    keys: &mut [u32],
    rows: &mut [u32],
    spare: &mut [u32],
    counts: &mut [u32],
) -> bool
    requires { (check_of grid ≡ fine) × Roomy (grid_need grid) (lengths keys.old rows.old spare.old counts.old) }
    ensures { Asked grid result keys.old keys.new rows.old rows.new spare.old spare.new counts.old
        counts.new }
{
    let mut none = [0u32; 0];
    let said = grid_mesh::cell_words(grid, &mut none, keys, rows, spare, counts);
    said == Err(Refusal::CrowdedFacet)
}

// Draws the band on a grid that has no crowded facet. Refused: 18, 19, 12.
fn draw(grid: Grid, south: i32, north: i32, bytes: &mut [u8]) -> Result<u32, Refusal>
    requires { check_of grid ≡ fine }
    ensures { Ended grid south north result bytes.old bytes.new }
{
    if !kind::is_band(grid) {
        return Err(Refusal::OtherGrid);
    }
    if !kind::latitudes_fit(south, north) {
        return Err(Refusal::BadLatitudes);
    }
    let low = kind::from_pole(south);
    let high = kind::from_pole(north);
    let len = file::collection(grid, low, high, &mut bytes[..0]);
    if bytes.len() < len {
        return Err(Refusal::TooShort);
    }
    file::collection(grid, low, high, bytes);
    Ok(len as u32)
}

// Writes the band between two latitudes, in whole degrees, as a map file, and says how many bytes it has. Refused: 1, 9, 8, 3, 6, then 12 where a working list is too
// short, then 7, 18 for another kind of grid, 19 for south not below north or either beyond 90, 12 where the byte list is too short. A refusal changes no byte; from the
// room's test on what is needed of the working lists is zero at the end.
pub fn geojson(
    grid: Grid,
    south: i32,
    north: i32,
    bytes: &mut [u8],
    keys: &mut [u32],
    rows: &mut [u32],
    spare: &mut [u32],
    counts: &mut [u32],
) -> Result<u32, Refusal>
    ensures { GeoJson grid south north result bytes.old bytes.new keys.old keys.new rows.old rows.new
        spare.old spare.new counts.old counts.new }
{
    grid.check()?;
    let d = grid.d as usize;
    let need = complex::need(d, grid_words::cells(grid) * (d + 1));
    let have = Room {
        keys: keys.len(),
        rows: rows.len(),
        spare: spare.len(),
        counts: counts.len(),
    };
    if !refusal::has_room(need, have) {
        return Err(Refusal::TooShort);
    }
    if is_crowded(grid, keys, rows, spare, counts) {
        return Err(Refusal::CrowdedFacet);
    }
    draw(grid, south, north, bytes)
}
