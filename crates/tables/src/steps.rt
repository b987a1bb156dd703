// A line of a label or a table: what is wrong with it, or what it defines is stored.
ghost use Rattle.tables.specs.Promises.{StepLabelPromise, StepTablePromise};

use crate::label_faults::label_fault;
use crate::label_storing::store_label;
use crate::table_faults::table_fault;
use crate::table_storing::store_table;
use form::lines::Scheme;
use index::counts::Counts;
use stepping::fault::Fault;
use workspace::layout::{LABELS, PURPOSE_CELLS, SET_WORDS, TABLE_CELLS};

// A label, whose name stands at l, with the purposes from two places on.
pub fn step_label(
    text: &[u8],
    at: usize,
    line: &[u8],
    purposes: &[usize; PURPOSE_CELLS],
    labels: &mut [usize; LABELS],
    sets: &mut [u64; SET_WORDS],
    c: Counts,
    l: usize,
    allowed: usize,
    denied: usize,
) -> Result<Counts, Fault>
    ensures { StepLabelPromise text.now at line.now purposes.now labels.old labels.new sets.old sets.new c l allowed denied result }
{
    let k = c.labels;
    label_fault(
        text, purposes, c.purposes, labels, k, line, l, allowed, denied,
    )?;
    store_label(
        text, purposes, c.purposes, labels, sets, k, at, line, l, allowed, denied,
    );
    let mut next = c;
    next.labels = k + 1;
    Ok(next)
}

// A table, whose name stands at t, of this scheme, with its label at l, if it has one, and its columns from cs on.
pub fn step_table(
    text: &[u8],
    at: usize,
    line: &[u8],
    labels: &[usize; LABELS],
    tables: &mut [usize; TABLE_CELLS],
    c: Counts,
    t: usize,
    scheme: Scheme,
    l: usize,
    cs: usize,
) -> Result<Counts, Fault>
    ensures { StepTablePromise text.now at line.now labels.now tables.old tables.new c t scheme l cs result }
{
    let k = c.tables;
    table_fault(text, labels, c.labels, tables, k, line, t, scheme, l, cs)?;
    store_table(
        text, labels, c.labels, tables, k, at, line, t, scheme, l, cs,
    );
    let mut next = c;
    next.tables = k + 1;
    Ok(next)
}
