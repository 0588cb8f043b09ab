// Replays stored requests: each line of the input is a call's number, two numbers, and two lists, each after its length. For each the program writes
// the refusal's number and place, or 0 and the answer, and what was handed out. The file `stdout` has what the Rust answers, so a run that writes anything
// else is a difference.
#![tactic(auto)]

mod listing;
mod requests;
mod show;

ghost use Rattle.std.specs.Prelude.{◌≤◌, ◌<◌, length};

// The request that begins at `from`; where the next one begins.
fn request(text: &[u8], from: usize) -> usize
    requires { from < length text.now }
    ensures { (from < result) × (result ≤ length text.now) }
{
    let kind = replay_reading::number(text, from);
    let a = replay_reading::number(text, kind.end);
    let b = replay_reading::number(text, a.end);
    let mut first = [0u32; 128];
    let mut second = [0u32; 128];
    let one = replay_reading::list(text, b.end, &mut first);
    let two = replay_reading::list(text, one.end, &mut second);
    if from < two.end {
        if 0 < kind.value {
            requests::call(
                kind.value,
                replay_reading::low(a.value),
                replay_reading::low(b.value),
                &first[..one.count],
                &second[..two.count],
            );
        }
        return two.end;
    }
    from + 1
}

// Every request.
fn replay(text: &[u8]) {
    let mut at = 0;
    // Kept: each request says where the next begins, so there is no range or list to count over.
    while at < text.len() {
        at = request(text, at);
    }
}

fn main() {
    let mut text = io::large_buffer();
    let n = io::read_full(0, &mut text);
    replay(&text[..n]);
}
