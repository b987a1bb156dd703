// Label lines: what is wrong with one.
ghost use Rattle.tables.specs.Promises.{LabelFaultPromise};

use crate::words::{first_repeat, first_unknown_purpose};
use relations::labels::find_label;
use stepping::fault::Fault;
use text::refusals::Reason;
use workspace::layout::{LABELS, PURPOSE_CELLS};

// The label whose name stands at l of the line, behind k labels; its sets of purposes stand from `allowed` and from `denied` on.
pub fn label_fault(
    text: &[u8],
    purposes: &[usize; PURPOSE_CELLS],
    purposes_count: usize,
    labels: &[usize; LABELS],
    k: usize,
    line: &[u8],
    l: usize,
    allowed: usize,
    denied: usize,
) -> Result<(), Fault>
    ensures { LabelFaultPromise text.now purposes.now purposes_count labels.now k line.now l allowed denied result }
{
    if LABELS <= k {
        return Err(Fault::Whole(Reason::OverBound));
    }
    if find_label(text, labels, k, line, l).is_some() {
        return Err(Fault::Item(Reason::NameTaken, l));
    }
    if let Some(v) = first_repeat(line, allowed) {
        return Err(Fault::Item(Reason::NameTaken, v));
    }
    if let Some(v) = first_repeat(line, denied) {
        return Err(Fault::Item(Reason::NameTaken, v));
    }
    if let Some(v) = first_unknown_purpose(text, purposes, purposes_count, line, allowed) {
        return Err(Fault::Item(Reason::NameUnknown, v));
    }
    if let Some(v) = first_unknown_purpose(text, purposes, purposes_count, line, denied) {
        return Err(Fault::Item(Reason::NameUnknown, v));
    }
    Ok(())
}
