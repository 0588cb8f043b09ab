// Document 01's figures that are run: the refusal's number, 00 for none, and for signs the facet looks, 00 where none are reported, and the first six. The starred figures are proved in `figures_starred`; their signs are run too.
#![tactic(auto)]

use arrayvec::ArrayString;
use grid_sides::Sides;
use orientation::Coherence;
use quotient::{Axis, Glue, Grid};
use refusal::Refusal;
use std::fmt::Write;

// The refusal's number, 0 for none.
fn number(why: Option<Refusal>) -> u32 {
    match why {
        None => 0,
        Some(why) => why.number(),
    }
}

fn looks(said: Result<Coherence, Refusal>) -> u32 {
    match said {
        Ok(Coherence::Signs(_, n) | Coherence::OneSided(n)) => n,
        Err(_) => 0,
    }
}

fn line(n: u32) {
    let mut line = ArrayString::<16>::new();
    let _ = writeln!(line, "{n:02}");
    io::write_all(1, line.as_bytes());
}

// The signs of a list of words.
fn signs(d: u32, words: &[u32]) {
    let mut signs = [0i32; 6];
    let mut keys = [7u32; 160];
    let mut rows = [7u32; 32];
    let mut spare = [7u32; 32];
    let mut counts = [7u32; 32];
    let said = orientation::orientation(
        d,
        words,
        &mut signs,
        &mut keys,
        &mut rows,
        &mut spare,
        &mut counts,
    );
    let mut line = ArrayString::<32>::new();
    let _ = write!(
        line,
        "{:02} {:02} ",
        number(orientation::counted(said).err()),
        looks(said)
    );
    for sign in signs {
        let _ = match sign {
            1 => write!(line, "+"),
            -1 => write!(line, "-"),
            _ => write!(line, "."),
        };
    }
    let _ = writeln!(line);
    io::write_all(1, line.as_bytes());
}

// Whether an open axis with so many cells is taken.
fn row(count: u32) {
    let side = Sides {
        first: 1.0,
        second: 1.0,
        third: 1.0,
    };
    let open = Axis {
        count,
        glue: Glue::Open,
    };
    let grid = Grid {
        d: 1,
        first: open,
        second: open,
        third: open,
        sides: side,
    };
    line(number(grid.check().err()));
}

// The edge lengths of 3×3×1, axis 0 twisted over 1, 1 over 2, 2 open, with the sides 3, 3, 1.
fn two_lengths() {
    let side = Sides {
        first: 3.0,
        second: 3.0,
        third: 1.0,
    };
    let grid = Grid {
        d: 3,
        first: Axis {
            count: 3,
            glue: Glue::Twisted(2),
        },
        second: Axis {
            count: 3,
            glue: Glue::Twisted(4),
        },
        third: Axis {
            count: 1,
            glue: Glue::Open,
        },
        sides: side,
    };
    let mut lengths = [0f64; 324];
    let mut keys = [0u32; 648];
    let mut rows = [0u32; 648];
    let mut spare = [0u32; 648];
    let mut counts = [0u32; 648];
    let said = grid_lengths::edge_lengths_sq(
        grid,
        &mut lengths,
        &mut keys,
        &mut rows,
        &mut spare,
        &mut counts,
    );
    line(number(said.err()));
}

fn main() {
    // 3×1, axis 0 twisted over 1
    signs(2, &[0, 1, 4, 0, 3, 4, 1, 2, 5, 1, 4, 5, 2, 3, 0, 2, 5, 0]);
    // 3×1, axis 0 periodic
    signs(2, &[0, 1, 4, 0, 3, 4, 1, 2, 5, 1, 4, 5, 2, 0, 3, 2, 5, 3]);
    // five triangles, one_sided in the middle of a cell
    signs(2, &[0, 1, 2, 1, 2, 3, 0, 1, 4, 0, 3, 4, 2, 3, 4]);
    // one triangle
    signs(2, &[0, 1, 2]);
    // triangles 012, 013, 014
    signs(2, &[0, 1, 2, 0, 1, 3, 0, 1, 4]);
    // words 0,0,1
    signs(2, &[0, 0, 1]);
    // words 0,1,3 alone
    signs(2, &[0, 1, 3]);
    // three points, one of them twice
    signs(0, &[0, 2, 1, 1]);
    // seven edges in a row: the sign list is too short
    signs(1, &[0, 1, 1, 2, 2, 3, 3, 4, 4, 5, 5, 6, 6, 7]);
    for count in [4095, 4096, 4097] {
        row(count);
    }
    two_lengths();
}
