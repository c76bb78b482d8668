// The program `report`: reads an album from standard input and writes the report on it. It takes no arguments: given any, it says how it is
// run. Messages go to standard error, so that nothing but a report is on standard output.
#![tactic(auto)]

// One byte more than the largest album has: a longer input is read as longer, and so refused.
const ROOM: usize = refusal::MAX_BYTES + 1;

fn main(rt: HostRuntime) {
    if streams::has_arguments(&rt) {
        help(&rt);
        return;
    }
    let mut album = [0u8; ROOM];
    let mut text = [0u8; report_text::MAX_TEXT];
    let n = streams::read_full(&mut rt.stdin(), &mut album);
    if let Ok(k) = report_text::report_over(0, &album[..n], &mut text) {
        deliver(&rt, &text[..k]);
    }
}

// Writes the report, or says that it cannot be written.
fn deliver(rt: &(impl Print + Eprint), report: &[u8]) {
    if rt.write_all(report).is_err() {
        let _ = eprintln!(rt; "report: standard output cannot be written");
    }
}

// Says how the program is run.
fn help(rt: &impl Eprint) {
    let _ = eprintln!(rt;
        "report <FILE prints the report on the album FILE: its lists, and their greatest common divisor."
    );
    let _ = eprintln!(rt;
        "A broken album prints one line, `refused` and a number: docs/FORMAT.md says what each means."
    );
    let _ = eprintln!(rt;
        "report takes no arguments and reads at most 32,834 bytes of standard input."
    );
}
