// The law of refinement on real complexes: refining by a, then by b along the children's own words, is refining once by a·b.
//
// Each line of the input is a complex: a name and a colon, its dimension, how many children a refinement of it may have here, the words of its cells after
// their count of numbers, and an order's words after theirs (0: the cells' sorted vertices). For all a, b with a·b at most 64 three calls are made, and the two results are
// compared by shares: a vertex of the tower is that vertex of the single refinement which has the same shares of the coarse vertices, and the tower's words are
// then to be the single refinement's, each in its vertex order.
#![tactic(auto)]

mod calls;
mod rows;
mod shares;
mod show;
mod tower;

use tower::Counts;

// One complex.
fn line(text: &[u8]) -> Counts {
    let colon = replay_reading::place(text, b':');
    let dimension = replay_reading::number(text, colon);
    let most = replay_reading::number(text, dimension.end);
    let mut words = [0u32; 1024];
    let mut order = [0u32; 1024];
    let one = replay_reading::list(text, most.end, &mut words);
    let two = replay_reading::list(text, one.end, &mut order);
    let n = one.count;
    let m = two.count;
    let d = replay_reading::low(dimension.value);
    if refusal::MOST_DIMENSION < d {
        return Counts::fault();
    }
    let sizes = tower::sizes(d, &words[..n], &order[..m]);
    show::begin(&text[..colon], d, sizes.cells);
    let counts = tower::complex(
        d,
        sizes.vertices,
        replay_reading::low(most.value) as usize,
        &words[..n],
        &order[..m],
    );
    show::counts(counts);
    counts
}

// Every complex.
fn every(text: &[u8]) -> Counts {
    let mut counts = Counts::none();
    let mut at = 0;
    // Kept: each line says where the next begins, so there is no range or list to count over.
    while at < text.len() {
        let end = replay_reading::line_end(text, at);
        counts = counts.plus(line(&text[at..end]));
        at = end;
    }
    counts
}

fn main() {
    let mut text = io::large_buffer();
    let n = io::read_full(0, &mut text);
    let counts = every(&text[..n]);
    io::write_all(1, b"all");
    show::counts(counts);
}
