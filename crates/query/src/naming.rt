// The words of a query that name columns: where they stand, from left to right.
ghost use Rattle.std.specs.Prelude.{length};
ghost use Rattle.query.specs.Naming.{ComparedStored, NamesPlaced, PlacesStored, TestStored};
ghost use Rattle.query.specs.QueryForm.{selected};
ghost use Rattle.query.specs.QueryPlaces.{IsQuery, selected_from, wanted_at};

use crate::reading::{Question, Test, Wanted};
use condition::conditions::read_places;
use text::bytes::byte_at;
use text::walking::next_word;
use text::words::word_end;

// Stores where the selected columns stand, the first of them at p, as many as have room. Gives how many.
fn store_selected(s: &[u8], p: usize, out: &mut [usize]) -> usize
    ensures { PlacesStored s.now (selected_from s.now p) result out.old out.new }
{
    let mut at = p;
    let mut k = 0;
    while k < out.len() {
        out[k] = at;
        k += 1;
        let e = word_end(s, at);
        if byte_at(s, e) != b' ' {
            return k;
        }
        at = e + 1;
    }
    k
}

// The same for columns that may not be asked for.
fn store_wanted(s: &[u8], w: Wanted, out: &mut [usize]) -> usize
    ensures { PlacesStored s.now (selected (wanted_at s.now w)) result out.old out.new }
{
    match w {
        Wanted::Rows(_, p, _) => store_selected(s, p, out),
        Wanted::Count => 0,
    }
}

// Stores behind the first k places where the columns stand that n comparisons name, by the places of their operators, as
// many as have room. Gives how many places there are then.
fn store_compared(s: &[u8], ops: &[usize], n: usize, k: usize, out: &mut [usize]) -> usize
    ensures { ComparedStored s.now ops.now (length ops.now) n k result out.old out.new }
{
    let mut m = k;
    for j in 0..n {
        if j >= ops.len() {
            return m;
        }
        if m >= out.len() {
            return m;
        }
        out[m] = next_word(s, ops[j]);
        m += 1;
    }
    m
}

// The same by an array of places.
fn store_placed(s: &[u8], ops: &[usize; 64], n: usize, k: usize, out: &mut [usize]) -> usize
    ensures { ComparedStored s.now ops.now 64 n k result out.old out.new }
{
    store_compared(s, ops, n, k, out)
}

// The same for a condition that may be absent, whose operators' places are lent out.
fn store_tested(s: &[u8], t: Test, k: usize, out: &mut [usize], ops: &mut [usize; 64]) -> usize
    ensures { TestStored s.now t k result out.old out.new ops.new }
{
    match t {
        Test::Always => k,
        Test::When(at, n) => {
            read_places(s, at, false, ops);
            store_placed(s, ops, n, k, out)
        }
    }
}

// Stores where the words stand that name columns, those selected and every one in the condition, and where the condition's
// operators stand: 16 columns and 64 comparisons have room. Gives how many words there are.
pub fn named_places(s: &[u8], q: Question, places: &mut [usize; 80], ops: &mut [usize; 64]) -> usize
    ensures { IsQuery s.now q → NamesPlaced s.now q result places.new ops.new }
{
    let wanted = q.wanted;
    let test = q.test;
    let k = store_wanted(s, wanted, places);
    store_tested(s, test, k, places, ops)
}
