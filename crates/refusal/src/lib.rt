// Document 01's answers, refusal numbers and limits, each named once: what every public call says and how much it may be asked.
// The port added it: the Rust panics or answers `None`.
#![tactic(auto)]

ghost use Rattle.std.specs.Prelude.{◌≡◌};
ghost use Rattle.refusal.specs.Lent.{HasRoom};
ghost use Rattle.refusal.specs.Table.{number_of, place_of};

// The limits: specs/Limits.antt has the same numbers.
pub const MOST_DIMENSION: u32 = 3;

pub const MOST_CELLS: usize = 4096;

pub const MOST_VERTICES: usize = 4096;

pub const MOST_REFINEMENT: u32 = 64;

// The most numbers in a word, in a square of numbers, and the most corners of a cell list.
pub const ROW_MOST: usize = 4;

pub const SQUARE_MOST: usize = 9;

pub const MOST_CORNERS: usize = 16384;

// Why a call refuses its input. Where a refusal has a place, it is the word, vertex number, axis or side that the refusal speaks of.
#[derive(Clone, Copy, Debug, PartialEq, Eq)]
pub enum Refusal {
    // d outside its range.
    BadDimension,
    // Word list empty or no multiple of d+1.
    RaggedWords,
    // More than 4,096 cells.
    TooManyCells,
    // A word names a vertex twice: which word.
    VertexTwice(u32),
    // Some number below the largest is unused: the least of them.
    UnusedNumber(u32),
    // More than 4,096 vertices, or a number above 4,095.
    TooManyVertices,
    // A facet in three or more cells.
    CrowdedFacet,
    // Open axis under 1 cell, closed under 3: which axis.
    ShortAxis(u32),
    // An axis reflects itself, or one outside the grid: which axis.
    BadReflection(u32),
    // A side not a number or out of range: which side.
    BadSide(u32),
    // R outside 1 to 64.
    BadRefinement,
    // A lent list too short for the exact result, or working space too short.
    TooShort,
    // No coherent signs exist.
    NoSigns,
    // Sign list not one +1 or -1 for each cell.
    BadSigns,
    // Some grid edge gets two lengths.
    TwoLengths,
    // Order words not one for each cell, no more.
    BadOrder,
    // The program's line cannot be read.
    Unreadable,
    // The grid is not of two dimensions with axis 0 periodic and axis 1 open.
    OtherGrid,
    // South not below north, or either beyond 90 degrees.
    BadLatitudes,
    // A mesh file ends inside a record, or before the record that ends it.
    FileEnds,
    // A mesh file has a record of an unknown kind.
    UnknownKind,
    // A mesh file has a wrong length, order, count, field or birth, or bytes after its end.
    BadFile,
    // The set of cells to remove names a cell that is not there.
    NoSuchCell,
    // A dimension of faces that the mesh does not have.
    BadFaces,
}

impl Refusal {
    // The refusal's number in the table of document 01, and from 18 on of document 02.
    pub fn number(self) -> u32
        ensures { result ≡ number_of self }
    {
        match self {
            Refusal::BadDimension => 1,
            Refusal::RaggedWords => 2,
            Refusal::TooManyCells => 3,
            Refusal::VertexTwice(_) => 4,
            Refusal::UnusedNumber(_) => 5,
            Refusal::TooManyVertices => 6,
            Refusal::CrowdedFacet => 7,
            Refusal::ShortAxis(_) => 8,
            Refusal::BadReflection(_) => 9,
            Refusal::BadSide(_) => 10,
            Refusal::BadRefinement => 11,
            Refusal::TooShort => 12,
            Refusal::NoSigns => 13,
            Refusal::BadSigns => 14,
            Refusal::TwoLengths => 15,
            Refusal::BadOrder => 16,
            Refusal::Unreadable => 17,
            Refusal::OtherGrid => 18,
            Refusal::BadLatitudes => 19,
            Refusal::FileEnds => 20,
            Refusal::UnknownKind => 21,
            Refusal::BadFile => 22,
            Refusal::NoSuchCell => 23,
            Refusal::BadFaces => 24,
        }
    }

    // What the refusal speaks of, 0 where it has no place.
    pub fn place(self) -> u32
        ensures { result ≡ place_of self }
    {
        match self {
            Refusal::VertexTwice(word) => word,
            Refusal::UnusedNumber(vertex) => vertex,
            Refusal::ShortAxis(axis) => axis,
            Refusal::BadReflection(axis) => axis,
            Refusal::BadSide(side) => side,
            _ => 0,
        }
    }
}

// Lengths of the four working lists: what a call needs of them, or what it is lent.
#[derive(Clone, Copy)]
pub struct Room {
    pub keys: usize,
    pub rows: usize,
    pub spare: usize,
    pub counts: usize,
}

// Whether working lists of the lengths `have` are long enough for `need`.
pub fn has_room(need: Room, have: Room) -> bool
    ensures { HasRoom need have result }
{
    need.keys <= have.keys
        && need.rows <= have.rows
        && need.spare <= have.spare
        && need.counts <= have.counts
}
