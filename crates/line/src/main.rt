// The program `line`: reads a line of algebra and an album from standard input and writes the list that the line says. It takes no
// arguments: given any, it says how it is run. Messages go to standard error, so that nothing but a text is on standard output.
#![tactic(auto)]

// One byte more than the longest line, the byte 0A after it and the largest album have: a longer album is read as longer, and so refused.
const ROOM: usize = refusal::MAX_LINE + 1 + refusal::MAX_BYTES + 1;

fn main(rt: HostRuntime) {
    if streams::has_arguments(&rt) {
        help(&rt);
        return;
    }
    let mut input = [0u8; ROOM];
    let mut text = [0u8; report_text::MAX_TEXT];
    let n = streams::read_full(&mut rt.stdin(), &mut input);
    if let Ok(k) = line_text::line_text_over(0, &input[..n], &mut text) {
        deliver(&rt, &text[..k]);
    }
}

// Writes the text, or says that it cannot be written.
fn deliver(rt: &(impl Print + Eprint), text: &[u8]) {
    if rt.write_all(text).is_err() {
        let _ = eprintln!(rt; "line: standard output cannot be written");
    }
}

// Says how the program is run.
fn help(rt: &impl Eprint) {
    let _ = eprintln!(rt;
        "line <INPUT prints the list that a line of algebra says: INPUT has the line, byte 0A, then the bytes of an album, as (cat LINE; cat FILE) gives them."
    );
    let _ = eprintln!(rt;
        "A broken line or album prints one line, `refused` and a number: docs/FORMAT.md says what each means."
    );
    let _ = eprintln!(rt;
        "line takes no arguments and reads at most 33,091 bytes of standard input."
    );
}
