// The call on map files as a C function, by the one convention of all of them (crate `planner_passing`, include/planner.h): a thin call of the proved one, with its
// promise, that asks nothing of its caller. The port added it.
#![tactic(auto)]

ghost use Rattle.file_geojson.specs.Promise.{GeoJson};
ghost use Rattle.planner_passing.specs.Said.{Said, counted_code};
ghost use Rattle.planner_passing.specs.Given.{plain_given};

use planner_passing::{given, said};

// The band between two latitudes, in whole degrees, as a GeoJSON file: how many bytes. Refused: 1, 9, 8, 3, 6, then 12 where a working list is too short, then 7, 18 for
// another kind of grid, 19 for south not below north or either beyond 90, 12 where the byte list is too short.
#[unsafe(no_mangle)]
pub extern "C" fn planner_geojson(
    d: u32,
    south: i32,
    north: i32,
    axes: &[u32],
    bytes: &mut [u8],
    keys: &mut [u32],
    rows: &mut [u32],
    spare: &mut [u32],
    counts: &mut [u32],
) -> u64
    ensures { Said counted_code (λ a. GeoJson (plain_given d axes.now) south north a bytes.old bytes.new keys.old keys.new
        rows.old rows.new spare.old spare.new counts.old counts.new) result }
{
    let g = given::plain(d, axes);
    said::counted(file_geojson::geojson(g, south, north, bytes, keys, rows, spare, counts))
}
