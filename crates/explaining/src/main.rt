// Tells why cells of the policy in policy.txt, taken as empty where there is none, are open or closed. Standard input is a line
// `(why P T ROW COL)` for each; the last may lack its line feed. Prints the reason, or `(refused NUMBER query START LENGTH)`; for a refused
// policy one such line with `document`, and stops. It stops too, and standard error says why, where something can't be read or written: no
// line gets another's reason. With arguments it says how it is called, and reads nothing.
#![tactic(auto)]

use checker::loading::load;
use index::counts::Counts;
use kept_line::{LINE_BYTES, explain_kept};
use programs::arguments::is_given;
use programs::line_reader::{at_start, is_line, read_line};
use programs::output::{within, write_first};
use programs::refusals::write_refused;
use programs::{input, policy};
use std::rt::Files;
use telling::texts;
use telling::texts::tell;
use text::refusals::Refusal;
use workspace::layout::{
    ATTRIBUTE_CELLS, COND_ROLE_CELLS, GRANT_CELLS, LABELS, PURPOSE_CELLS, ROLE_CELLS, ROW_CELLS,
    SET_WORDS, TABLE_CELLS, USER_CELLS,
};

mod kept_line;

// Room for the bytes that one read brings.
const BUFFER: usize = 4096;

// Writes what a line gets, and says whether it was written whole.
fn write_told<R: Print + Eprint>(
    rt: &R,
    t: Result<usize, Refusal>,
    out: &[u8; texts::LINE_BYTES],
) -> bool {
    match t {
        Ok(len) => write_first(rt, len, out),
        Err(r) => write_refused(rt, r),
    }
}

// The lines of standard input, each told by itself. The turns are counted down as in reading.
fn explain_input<R: Input + Print + Eprint>(
    rt: &R,
    policy: &[u8],
    purposes: &[usize; PURPOSE_CELLS],
    labels: &[usize; LABELS],
    sets: &[u64; SET_WORDS],
    tables: &[usize; TABLE_CELLS],
    rows: &[usize; ROW_CELLS],
    c: Counts,
) {
    let mut bytes = [0u8; BUFFER];
    let mut line = [0u8; LINE_BYTES];
    let mut out = [0u8; texts::LINE_BYTES];
    let mut input = rt.reader();
    let mut r = at_start();
    for _ in 0..u64::MAX {
        if !r.more {
            return;
        }
        r = read_line(rt, &mut input, &mut bytes, &mut line, r);
        if !is_line(r) {
            return;
        }
        let kept = within(r.len, &line);
        let e = explain_kept(
            policy,
            purposes,
            labels,
            sets,
            tables,
            rows,
            c,
            &line[..kept],
            r.len,
        );
        let t = tell(policy, e, &mut out);
        if !write_told(rt, t, &out) {
            return;
        }
    }
}

// The policy is loaded once, and asked with each line. One that is refused tells nothing.
fn explain_checked<R: Input + Print + Eprint>(rt: &R, policy: &[u8]) {
    let mut purposes = [0usize; PURPOSE_CELLS];
    let mut roles = [0usize; ROLE_CELLS];
    let mut attributes = [0usize; ATTRIBUTE_CELLS];
    let mut users = [0usize; USER_CELLS];
    let mut conds = [0usize; COND_ROLE_CELLS];
    let mut grants = [0usize; GRANT_CELLS];
    let mut labels = [0usize; LABELS];
    let mut sets = [0u64; SET_WORDS];
    let mut tables = [0usize; TABLE_CELLS];
    let mut rows = [0usize; ROW_CELLS];
    let l = load(
        policy,
        &mut purposes,
        &mut roles,
        &mut attributes,
        &mut users,
        &mut conds,
        &mut grants,
        &mut labels,
        &mut sets,
        &mut tables,
        &mut rows,
    );
    match l {
        Ok((c, _)) => {
            explain_input(rt, policy, &purposes, &labels, &sets, &tables, &rows, c);
        }
        Err(r) => {
            write_refused(rt, r);
        }
    }
}

fn explain_policy<R: Files + Input + Print + Eprint>(rt: &R) {
    let mut text = [0u8; policy::ROOM];
    let Some(n) = policy::load(rt, &mut text) else {
        return;
    };
    explain_checked(rt, &text[..n]);
}

fn main(rt: HostRuntime) {
    if !is_given(&rt, 0) || is_given(&rt, 1) {
        let _ = eprintln!(rt;
            "usage: explaining, with why lines on standard input and policy.txt in this folder"
        );
        return;
    }
    explain_policy(&rt);
}
