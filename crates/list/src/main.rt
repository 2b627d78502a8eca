// Lists one file from standard input: for each trace its number, and then its records, one to a line. A refused file
// has the single line of its refusal.
#![tactic(auto)]

use tracefile::Refusal;

// The process's input and output, through a library that rests on no more of the C library than its `read` and `write`.
const STDIN: i32 = 0;

const STDOUT: i32 = 1;

// Room for a line: fixed memory, no heap.
const LINE: usize = 256;

// Writes the first bytes of a line, as many as the functions for lines count.
fn say(line: &[u8], length: usize) {
    if let Some(text) = line.get(..length) {
        io::write_all(STDOUT, text);
    }
}

// Lists a trace.
fn list_trace(file: &[u8], trace: u32) {
    let mut line = [0; LINE];
    let length = lines::trace_line(trace, &mut line);
    say(&line, length);
    for record in listing::start(tracefile::asked_body(file, trace)) {
        let length = lines::record_line(record, &mut line);
        say(&line, length);
    }
}

// Says the line of a refusal.
fn say_refusal(refusal: Refusal) {
    let mut line = [0; LINE];
    let length = lines::refusal_line(refusal, &mut line);
    say(&line, length);
}

// Lists a file, whose number of traces stands at byte 3.
fn list(file: &[u8]) {
    match tracefile::check_file(file) {
        Err(refusal) => say_refusal(refusal),
        Ok(()) => {
            let traces = file.get(3).copied().unwrap_or(0);
            for trace in 1..=u32::from(traces) {
                list_trace(file, trace);
            }
        }
    }
}

fn main() {
    // 65,536 bytes are one more than the longest file has, so that a longer one is seen to be too long.
    let mut file = io::large_buffer();
    let length = io::read_full(STDIN, &mut file);
    list(&file[..length]);
}
