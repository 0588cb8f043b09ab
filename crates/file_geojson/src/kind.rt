// Which grids and latitudes are taken.
ghost use Rattle.std.specs.Prelude.{◌≡◌, false, pos, negsuc};
ghost use Rattle.std.specs.Int.Signed.{lt_z};
ghost use Rattle.file_geojson.specs.Kind.{band_grid, latitudes_fit, from_pole};

use quotient::Grid;

// Whether the grid has two dimensions, axis 0 periodic and axis 1 open.
pub(crate) fn is_band(grid: Grid) -> bool
    ensures { result ≡ band_grid grid }
{
    let first = grid.axis(0);
    let second = grid.axis(1);
    let around = first.glue;
    let up = second.glue;
    if grid.d != 2 {
        return false;
    }
    if !around.closed() {
        return false;
    }
    if around.mask() != 0 {
        return false;
    }
    !up.closed()
}

// Whether south is below north, and neither is beyond 90 degrees.
pub(crate) fn latitudes_fit(south: i32, north: i32) -> bool
    ensures { result ≡ latitudes_fit south north }
{
    if south < -90 {
        return false;
    }
    if north > 90 {
        return false;
    }
    south < north
}

// A latitude in whole degrees from the South Pole. For crates above.
pub fn from_pole(latitude: i32) -> u32
    requires { (lt_z latitude (negsuc 89) ≡ false) × (lt_z (pos 90) latitude ≡ false) }
    ensures { result ≡ from_pole latitude }
{
    (latitude + 90) as u32
}
