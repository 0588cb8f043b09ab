// The mesh's number of a grid cell: its place among the cells after gluing.
//
// A row of n columns has 2n cells, and its cells stand together in the mesh too, row after row. Inside a row each stands one place later than in the grid, since the
// cell below the seam's diagonal has the lowest last vertex and comes first; and the three cells that are last in the grid come as 2n - 1, 0 and 2n - 2.
ghost use Rattle.std.specs.Prelude.{◌≡◌, true, ◌<◌};
ghost use Rattle.refusal.specs.Says.{fine};
ghost use Rattle.quotient.specs.Shape.{check_of, cell_count};
ghost use Rattle.grid_words.specs.WorkNumbered.{cell_no};
ghost use Rattle.file_geojson.specs.File.{mesh_number};
ghost use Rattle.file_geojson.specs.Kind.{band_grid};

use quotient::Grid;

// The mesh's number of grid cell x.
pub(crate) fn mesh_number(grid: Grid, x: usize) -> usize
    requires { (check_of grid ≡ fine) × (band_grid grid ≡ true) × (x < cell_count grid) }
    ensures { result ≡ mesh_number grid (cell_no grid x) }
{
    let axis = grid.axis(0);
    let row = 2 * axis.count as usize;
    let i = x % row;
    if i + 3 < row {
        return x + 1;
    }
    if i + 3 == row {
        return x + 2;
    }
    if i + 2 == row {
        return x - i;
    }
    x - 1
}
