// Reads one trace file from standard input, and prints a line or two for each of its traces. It stands on the C library's read
// and write alone, without a heap; a read that fails ends the file, where std's reader would give an error in place of a text.
#![tactic(auto)]

// The process's input and output.
const STDIN: i32 = 0;

const STDOUT: i32 = 1;

fn main() {
    // 65,536 bytes are one more than the longest file has, so that a longer one is seen to be too long.
    let mut file = io::large_buffer();
    let length = io::read_full(STDIN, &mut file);
    let mut text = [0; report::ROOM];
    let size = report::report(&file[..length], &mut text);
    io::write_all(STDOUT, &text[..size]);
}
