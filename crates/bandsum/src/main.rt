// One line in, six lines or the one line of a refusal out. The buffer holds the longest line and one byte more: what follows cannot change the answer, and is not read.
#![tactic(auto)]

const ENOUGH: usize = bandsum_line::LONGEST + 1;

fn main() {
    let mut buffer = [0u8; ENOUGH];
    let n = io::read_full(0, &mut buffer);
    let printed = bandsum_sums::printed(&buffer[..n]);
    let bytes = printed.bytes;
    let len = printed.len;
    io::write_all(1, &bytes[..len]);
}
