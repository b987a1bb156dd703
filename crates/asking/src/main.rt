// Asks the policy in policy.txt, taken as empty where there is none. Standard input is a line `(clock YEAR DAY HOUR)` and then a
// query a line; the last line may lack its line feed. Prints each answer, or `(refused NUMBER query START LENGTH)`; for a refused
// policy one such line with `document`, and stops. It stops too, and standard error says why, where something can't be read or
// written: no query gets another's answer.
#![tactic(auto)]

use clock_line::read_clock;
use gate::documents::load;
use loaded::asks::ask_loaded;
use loaded::cells::CELLS;
use programs::line_reader::{at_start, is_line, read_line};
use programs::output::{within, write_first};
use programs::policy;
use programs::refusals::{part_len, write_refused};
use query::clock::Clock;
use stages::answered::Figures;
use text::refusals::Refusal;
use workspace::layout::{
    ATTRIBUTE_CELLS, COND_ROLE_CELLS, GRANT_CELLS, LABELS, PURPOSE_CELLS, ROLE_CELLS, ROW_CELLS,
    SET_WORDS, TABLE_CELLS, USER_CELLS,
};

mod clock_line;

// One byte more than a query may have, which tells a longer one.
const LINE_BYTES: usize = 4097;

// Room for the bytes that one read brings.
const BUFFER: usize = 4096;

// Writes what a query gets, and says whether it was written whole.
fn write_answered<R: Print + Eprint>(
    rt: &R,
    a: Result<Figures, Refusal>,
    out: &[u8],
    kept: usize,
    len: usize,
) -> bool {
    match a {
        Ok(x) => write_first(rt, x.len, out),
        Err(r) => {
            let mut whole = r;
            whole.len = part_len(r.len, kept, len);
            write_refused(rt, whole)
        }
    }
}

// The clock's line, and then a query a line: the last may lack its line feed.
fn ask_policy<R: Input + Print + Eprint>(
    rt: &R,
    policy: &[u8],
    purposes: &[usize; PURPOSE_CELLS],
    roles: &[usize; ROLE_CELLS],
    attributes: &[usize; ATTRIBUTE_CELLS],
    users: &[usize; USER_CELLS],
    conds: &[usize; COND_ROLE_CELLS],
    grants: &[usize; GRANT_CELLS],
    sets: &[u64; SET_WORDS],
    tables: &[usize; TABLE_CELLS],
    rows: &[usize; ROW_CELLS],
    cells: &[usize; CELLS],
) {
    let mut bytes = [0u8; BUFFER];
    let mut line = [0u8; LINE_BYTES];
    let mut out = [0u8; 60021];
    let mut input = rt.reader();
    let mut r = at_start();
    r = read_line(rt, &mut input, &mut bytes, &mut line, r);
    let first = within(r.len, &line);
    let clock = read_clock(&line[..first]);
    for _ in 0..u64::MAX {
        if !r.more {
            return;
        }
        r = read_line(rt, &mut input, &mut bytes, &mut line, r);
        if !is_line(r) {
            return;
        }
        let kept = within(r.len, &line);
        let a = ask_loaded(
            policy,
            purposes,
            roles,
            attributes,
            users,
            conds,
            grants,
            sets,
            tables,
            rows,
            cells,
            clock,
            &line[..kept],
            &mut out,
        );
        if !write_answered(rt, a, &out, kept, r.len) {
            return;
        }
    }
}

// The policy is loaded once, and asked with each query. One that is refused answers nothing.
fn ask_checked<R: Input + Print + Eprint>(rt: &R, policy: &[u8]) {
    let mut purposes = [0usize; PURPOSE_CELLS];
    let mut roles = [0usize; ROLE_CELLS];
    let mut attributes = [0usize; ATTRIBUTE_CELLS];
    let mut users = [0usize; USER_CELLS];
    let mut conds = [0usize; COND_ROLE_CELLS];
    let mut grants = [0usize; GRANT_CELLS];
    let mut labels = [0usize; LABELS];
    let mut sets = [0u64; SET_WORDS];
    let mut tables = [0usize; TABLE_CELLS];
    let mut rows = [0usize; ROW_CELLS];
    let mut cells = [0usize; CELLS];
    let c = load(
        policy,
        &mut purposes,
        &mut roles,
        &mut attributes,
        &mut users,
        &mut conds,
        &mut grants,
        &mut labels,
        &mut sets,
        &mut tables,
        &mut rows,
        &mut cells,
    );
    match c {
        Ok((_, _)) => {
            ask_policy(
                rt,
                policy,
                &purposes,
                &roles,
                &attributes,
                &users,
                &conds,
                &grants,
                &sets,
                &tables,
                &rows,
                &cells,
            );
        }
        Err(r) => {
            write_refused(rt, r);
        }
    }
}

fn main(rt: HostRuntime) {
    let mut text = [0u8; policy::ROOM];
    let Some(n) = policy::load(&rt, &mut text) else {
        return;
    };
    ask_checked(&rt, &text[..n]);
}
