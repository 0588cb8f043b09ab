// Replays stored refinements: each line of the input is 1 for `refine` or 2 for `refine_with`, the dimension, R, the words and the order's words, each list after
// its length (the order is read by `refine_with` alone). For each the program writes the refusal's number and place, or 0 and the number of children, and then
// every result. The file `stdout` has what the Rust answers, so a run that writes anything else is a difference.
#![tactic(auto)]

mod calls;
mod show;

ghost use Rattle.std.specs.Prelude.{◌≤◌, ◌<◌, length};

// The call with this number.
fn call(kind: u64, d: u32, r: u32, words: &[u32], order: &[u32]) {
    if kind == 1 {
        calls::by_numbers(d, words, r);
    } else {
        calls::by_order(d, words, order, r);
    }
}

// The request that begins at `from`; where the next one begins.
fn request(text: &[u8], from: usize) -> usize
    requires { from < length text.now }
    ensures { (from < result) × (result ≤ length text.now) }
{
    let kind = replay_reading::number(text, from);
    let d = replay_reading::number(text, kind.end);
    let r = replay_reading::number(text, d.end);
    let mut words = [0u32; 64];
    let mut order = [0u32; 64];
    let one = replay_reading::list(text, r.end, &mut words);
    let two = replay_reading::list(text, one.end, &mut order);
    if from < two.end {
        if 0 < kind.value {
            call(
                kind.value,
                replay_reading::low(d.value),
                replay_reading::low(r.value),
                &words[..one.count],
                &order[..two.count],
            );
        }
        return two.end;
    }
    from + 1
}

// Every request.
fn replay(text: &[u8]) {
    let mut at = 0;
    // Kept: each request says where the next begins, so there is no range or list to count over.
    while at < text.len() {
        at = request(text, at);
    }
}

fn main() {
    let mut text = io::large_buffer();
    let n = io::read_full(0, &mut text);
    replay(&text[..n]);
}
