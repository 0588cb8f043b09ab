// What the program `bandsum` prints: six lines on a grid, or the one line of a refusal.
// The port added it, with the program.
#![tactic(auto)]

ghost use Rattle.std.specs.Prelude.{◌≡◌};
ghost use Rattle.text.specs.Adds.{holding};
ghost use Rattle.bandsum_lines.specs.Lines.{lines_of, refused_line};

use text::Text;

// The six things that are told of a grid: how many cells, vertices and edges it has after gluing, how many facets lie in one cell, 2 where the gluing preserves
// orientation and else 1, and whether an order was handed out.
#[derive(Clone, Copy)]
pub struct Summary {
    pub cells: u32,
    pub vertices: u32,
    pub edges: u32,
    pub border: u32,
    pub sides: u32,
    pub ordered: bool,
}

// The six lines.
pub fn lines(s: Summary) -> Text
    ensures { result ≡ holding (lines_of s) }
{
    let a = Text::empty();
    let b = a.line(b"cells ", s.cells);
    let c = b.line(b"vertices ", s.vertices);
    let d = c.line(b"edges ", s.edges);
    let e = d.line(b"border ", s.border);
    let f = e.line(b"sides ", s.sides);
    if s.ordered {
        f.word(b"ordered yes\n")
    } else {
        f.word(b"ordered no\n")
    }
}

// The line of a refusal.
pub fn refused(number: u32) -> Text
    ensures { result ≡ holding (refused_line number) }
{
    let a = Text::empty();
    a.line(b"refused ", number)
}
