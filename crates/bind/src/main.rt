// The program `bind`: reads lists from standard input, as text, and writes their album. It takes no arguments: given any, it says how it is
// run. Messages go to standard error, so that nothing but an album is on standard output.
#![tactic(auto)]

use refusal::Refusal;

// One byte more than the longest text: a longer input is read as longer, and so refused.
const ROOM: usize = bind_text::MAX_INPUT + 1;

fn main(rt: HostRuntime) {
    if streams::has_arguments(&rt) {
        help(&rt);
        return;
    }
    let mut text = [0u8; ROOM];
    let mut album = [0u8; refusal::MAX_BYTES];
    let n = streams::read_full(&mut rt.stdin(), &mut text);
    match bind_text::bind_over(0, &text[..n], &mut album) {
        Ok(k) => deliver(&rt, &album[..k]),
        Err(why) => refuse(&rt, why),
    }
}

// Writes the album, or says that it cannot be written.
fn deliver(rt: &(impl Print + Eprint), album: &[u8]) {
    if rt.write_all(album).is_err() {
        let _ = eprintln!(rt; "bind: standard output cannot be written");
    }
}

// Says what the text is refused with: `refused` and the number.
fn refuse(rt: &impl Eprint, why: Refusal) {
    let _ = eprintln!(rt; "{why}");
}

// Says how the program is run.
fn help(rt: &impl Eprint) {
    let _ = eprintln!(rt;
        "bind <TEXT >FILE writes the album of the lists in TEXT: a list on each line, its words in decimal, spaces between them."
    );
    let _ = eprintln!(rt;
        "A text that is no album writes nothing but one line here, `refused` and a number: docs/FORMAT.md says what each means."
    );
    let _ = eprintln!(rt;
        "bind takes no arguments and reads at most 262,145 bytes of standard input."
    );
}
