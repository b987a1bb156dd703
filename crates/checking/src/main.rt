// Checks the document in policy.txt, taken as empty where there is none, and writes what the check says: `(accepted LINES RESERVE)`,
// or `(refused NUMBER document START LENGTH)`. Where the file can't be read, or nothing can be written, standard error says why.
#![tactic(auto)]

use gate::documents::check;
use programs::lines::accepted_line;
use programs::output::write_out;
use programs::policy::load;
use programs::refusals::write_refused;
use programs::{lines, policy};
use text::refusals::Refusal;

fn write_accepted<R: Print + Eprint>(rt: &R, lines: usize, reserve: usize) {
    let mut line = [0u8; lines::ROOM];
    let n = accepted_line(&mut line, lines, reserve);
    write_out(rt, &line[..n]);
}

fn write_checked<R: Print + Eprint>(rt: &R, c: Result<(usize, usize), Refusal>) {
    match c {
        Ok((lines, reserve)) => {
            write_accepted(rt, lines, reserve);
        }
        Err(r) => {
            write_refused(rt, r);
        }
    }
}

fn main(rt: HostRuntime) {
    let mut text = [0u8; policy::ROOM];
    let Some(n) = load(&rt, &mut text) else {
        return;
    };
    write_checked(&rt, check(&text[..n]));
}
