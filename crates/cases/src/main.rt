// The cases of the request that are not marked with a star, and tables without labels (02, Q-2): each is run and printed, and the
// output is held to the file stdout.
#![tactic(auto)]

use gate::asking::ask;
use gate::documents::check;
use query::clock::Clock;
use std::io;
use text::refusals::{Refusal, number};

fn write_number<R: Print>(rt: &R, n: usize) -> io::Result<()> {
    print!(rt; " {n}")
}

fn write_refused<R: Print>(rt: &R, r: Refusal) -> io::Result<()> {
    print!(rt; ": refused")?;
    write_number(rt, number(r.reason))?;
    write_number(rt, r.start)?;
    write_number(rt, r.len)?;
    println!(rt; "")
}

// A document: its name, and how many lines it has, or the refusal's number, start and length.
fn show_check<R: Print>(rt: &R, name: &str, doc: &[u8]) -> io::Result<()> {
    print!(rt; "{name}")?;
    match check(doc) {
        Ok((lines, _)) => {
            print!(rt; ": accepted")?;
            write_number(rt, lines)?;
            println!(rt; "")
        }
        Err(r) => write_refused(rt, r),
    }
}

// A query over a document: its name, and the answer's length, grant and counts, or the refusal's number, start and length.
fn show_ask<R: Print>(
    rt: &R,
    name: &str,
    doc: &[u8],
    query: &[u8],
    out: &mut [u8],
) -> io::Result<()> {
    print!(rt; "{name}")?;
    let clock = Clock {
        year: 2028,
        day: 366,
        hour: 10,
    };
    match ask(doc, query, clock, out) {
        Ok(x) => {
            print!(rt; ": answered")?;
            write_number(rt, x.len)?;
            write_number(rt, x.grant)?;
            write_number(rt, x.passed)?;
            write_number(rt, x.withheld)?;
            write_number(rt, x.unmatched)?;
            println!(rt; "")
        }
        Err(r) => write_refused(rt, r),
    }
}

// The sample session's policy.
fn show_sample<R: Print>(rt: &R, name: &str, query: &[u8], out: &mut [u8]) -> io::Result<()> {
    show_ask(
        rt,
        name,
        b"(purpose all)\n(purpose bill all)\n(purpose ads all)\n(purpose post ads)\n(role desk)\n(attr desk level num)\n(user ana desk (level 5))\n(cond-role senior desk (and (ge level 5) (lt hour 17)))\n(grant ads senior)\n(label free (allow all) (deny))\n(label noads (allow all) (deny ads))\n(table sub cell (who name) (due num))\n(row sub (Ida free) (40 free))\n(row sub (Bo free) (75 noads))\n(row sub (Cy free) (60 free))\n",
        query,
        out,
    )
}

fn buffers<R: Print>(rt: &R) -> io::Result<()> {
    let mut exact = [0u8; 21];
    show_sample(
        rt,
        "buffer of 21 bytes",
        b"(select ana desk post sub (who) (gt due 50))",
        &mut exact,
    )?;
    let mut short = [0u8; 20];
    show_sample(
        rt,
        "buffer of 20 bytes",
        b"(select ana desk post sub (who) (gt due 50))",
        &mut short,
    )
}

fn names_and_numbers<R: Print>(rt: &R) -> io::Result<()> {
    show_check(
        rt,
        "name of 24 bytes",
        b"(purpose aaaaaaaaaaaaaaaaaaaaaaaa)\n",
    )?;
    show_check(
        rt,
        "name of 25 bytes",
        b"(purpose aaaaaaaaaaaaaaaaaaaaaaaaa)\n",
    )?;
    show_check(
        rt,
        "number 9223372036854775807",
        b"(table t none (a num))\n(row t 9223372036854775807)\n",
    )?;
    show_check(
        rt,
        "number 9223372036854775808",
        b"(table t none (a num))\n(row t 9223372036854775808)\n",
    )
}

fn nesting<R: Print>(rt: &R) -> io::Result<()> {
    show_check(
        rt,
        "nesting 16 in a document",
        b"(purpose all)\n(role desk)\n(attr desk level num)\n(cond-role c desk (not (not (not (not (not (not (not (not (not (not (not (not (not (not (eq level 1))))))))))))))))\n",
    )?;
    show_check(
        rt,
        "nesting 17 in a document",
        b"(purpose all)\n(role desk)\n(attr desk level num)\n(cond-role c desk (not (not (not (not (not (not (not (not (not (not (not (not (not (not (not (eq level 1)))))))))))))))))\n",
    )?;
    let mut out = [0u8; 60];
    show_sample(
        rt,
        "nesting 16 in a query",
        b"(count ana desk post sub (not (not (not (not (not (not (not (not (not (not (not (not (not (not (ge due 0))))))))))))))))",
        &mut out,
    )?;
    show_sample(
        rt,
        "nesting 17 in a query",
        b"(count ana desk post sub (not (not (not (not (not (not (not (not (not (not (not (not (not (not (not (ge due 0)))))))))))))))))",
        &mut out,
    )
}

fn bounds<R: Print>(rt: &R) -> io::Result<()> {
    show_check(
        rt,
        "64 labels",
        b"(purpose all)\n(label l0 (allow all) (deny))\n(label l1 (allow all) (deny))\n(label l2 (allow all) (deny))\n(label l3 (allow all) (deny))\n(label l4 (allow all) (deny))\n(label l5 (allow all) (deny))\n(label l6 (allow all) (deny))\n(label l7 (allow all) (deny))\n(label l8 (allow all) (deny))\n(label l9 (allow all) (deny))\n(label l10 (allow all) (deny))\n(label l11 (allow all) (deny))\n(label l12 (allow all) (deny))\n(label l13 (allow all) (deny))\n(label l14 (allow all) (deny))\n(label l15 (allow all) (deny))\n(label l16 (allow all) (deny))\n(label l17 (allow all) (deny))\n(label l18 (allow all) (deny))\n(label l19 (allow all) (deny))\n(label l20 (allow all) (deny))\n(label l21 (allow all) (deny))\n(label l22 (allow all) (deny))\n(label l23 (allow all) (deny))\n(label l24 (allow all) (deny))\n(label l25 (allow all) (deny))\n(label l26 (allow all) (deny))\n(label l27 (allow all) (deny))\n(label l28 (allow all) (deny))\n(label l29 (allow all) (deny))\n(label l30 (allow all) (deny))\n(label l31 (allow all) (deny))\n(label l32 (allow all) (deny))\n(label l33 (allow all) (deny))\n(label l34 (allow all) (deny))\n(label l35 (allow all) (deny))\n(label l36 (allow all) (deny))\n(label l37 (allow all) (deny))\n(label l38 (allow all) (deny))\n(label l39 (allow all) (deny))\n(label l40 (allow all) (deny))\n(label l41 (allow all) (deny))\n(label l42 (allow all) (deny))\n(label l43 (allow all) (deny))\n(label l44 (allow all) (deny))\n(label l45 (allow all) (deny))\n(label l46 (allow all) (deny))\n(label l47 (allow all) (deny))\n(label l48 (allow all) (deny))\n(label l49 (allow all) (deny))\n(label l50 (allow all) (deny))\n(label l51 (allow all) (deny))\n(label l52 (allow all) (deny))\n(label l53 (allow all) (deny))\n(label l54 (allow all) (deny))\n(label l55 (allow all) (deny))\n(label l56 (allow all) (deny))\n(label l57 (allow all) (deny))\n(label l58 (allow all) (deny))\n(label l59 (allow all) (deny))\n(label l60 (allow all) (deny))\n(label l61 (allow all) (deny))\n(label l62 (allow all) (deny))\n(label l63 (allow all) (deny))\n",
    )?;
    show_check(
        rt,
        "65 labels",
        b"(purpose all)\n(label l0 (allow all) (deny))\n(label l1 (allow all) (deny))\n(label l2 (allow all) (deny))\n(label l3 (allow all) (deny))\n(label l4 (allow all) (deny))\n(label l5 (allow all) (deny))\n(label l6 (allow all) (deny))\n(label l7 (allow all) (deny))\n(label l8 (allow all) (deny))\n(label l9 (allow all) (deny))\n(label l10 (allow all) (deny))\n(label l11 (allow all) (deny))\n(label l12 (allow all) (deny))\n(label l13 (allow all) (deny))\n(label l14 (allow all) (deny))\n(label l15 (allow all) (deny))\n(label l16 (allow all) (deny))\n(label l17 (allow all) (deny))\n(label l18 (allow all) (deny))\n(label l19 (allow all) (deny))\n(label l20 (allow all) (deny))\n(label l21 (allow all) (deny))\n(label l22 (allow all) (deny))\n(label l23 (allow all) (deny))\n(label l24 (allow all) (deny))\n(label l25 (allow all) (deny))\n(label l26 (allow all) (deny))\n(label l27 (allow all) (deny))\n(label l28 (allow all) (deny))\n(label l29 (allow all) (deny))\n(label l30 (allow all) (deny))\n(label l31 (allow all) (deny))\n(label l32 (allow all) (deny))\n(label l33 (allow all) (deny))\n(label l34 (allow all) (deny))\n(label l35 (allow all) (deny))\n(label l36 (allow all) (deny))\n(label l37 (allow all) (deny))\n(label l38 (allow all) (deny))\n(label l39 (allow all) (deny))\n(label l40 (allow all) (deny))\n(label l41 (allow all) (deny))\n(label l42 (allow all) (deny))\n(label l43 (allow all) (deny))\n(label l44 (allow all) (deny))\n(label l45 (allow all) (deny))\n(label l46 (allow all) (deny))\n(label l47 (allow all) (deny))\n(label l48 (allow all) (deny))\n(label l49 (allow all) (deny))\n(label l50 (allow all) (deny))\n(label l51 (allow all) (deny))\n(label l52 (allow all) (deny))\n(label l53 (allow all) (deny))\n(label l54 (allow all) (deny))\n(label l55 (allow all) (deny))\n(label l56 (allow all) (deny))\n(label l57 (allow all) (deny))\n(label l58 (allow all) (deny))\n(label l59 (allow all) (deny))\n(label l60 (allow all) (deny))\n(label l61 (allow all) (deny))\n(label l62 (allow all) (deny))\n(label l63 (allow all) (deny))\n(label l64 (allow all) (deny))\n",
    )
}

fn tables_without_labels<R: Print>(rt: &R) -> io::Result<()> {
    let mut out = [0u8; 60];
    show_ask(
        rt,
        "table without labels",
        b"(purpose ads)\n(role desk)\n(user ana desk)\n(cond-role any desk (gt day 0))\n(grant ads any)\n(table t none (a num))\n(row t 7)\n",
        b"(select ana desk ads t (a))",
        &mut out,
    )?;
    show_ask(
        rt,
        "table declared public",
        b"(purpose ads)\n(role desk)\n(user ana desk)\n(cond-role any desk (gt day 0))\n(grant ads any)\n(table t none (a num))\n(row t 7)\n(public t)\n",
        b"(select ana desk ads t (a))",
        &mut out,
    )?;
    show_ask(
        rt,
        "closed table declared public",
        b"(purpose ads)\n(role desk)\n(user ana desk)\n(cond-role any desk (gt day 0))\n(grant ads any)\n(label shut (allow) (deny))\n(table t table shut (a num))\n(public t)\n(row t 7)\n",
        b"(select ana desk ads t (a))",
        &mut out,
    )?;
    show_check(rt, "unknown table declared public", b"(public t)\n")?;
    show_check(
        rt,
        "table declared public twice",
        b"(table t none (a num))\n(public t)\n(public t)\n",
    )?;
    show_check(
        rt,
        "table declared public after another table",
        b"(table t none (a num))\n(public t)\n(table u none (a num))\n(public u)\n",
    )
}

fn show_all<R: Print>(rt: &R) -> io::Result<()> {
    buffers(rt)?;
    names_and_numbers(rt)?;
    nesting(rt)?;
    bounds(rt)?;
    tables_without_labels(rt)
}

// A line that can't be written is lost: what is printed is held to the file stdout.
fn main(rt: HostRuntime) {
    let _ = show_all(&rt);
}
