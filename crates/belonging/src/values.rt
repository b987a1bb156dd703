// The values of a user in a role, by the numbers of the attributes.
ghost use Rattle.std.specs.Prelude.{◌<◌, length, replicate, map, ◌≡◌};
ghost use Rattle.belonging.specs.Values.{Values, first_kept};
ghost use Rattle.document.specs.Lookup.{attribute_of};
ghost use Rattle.document.specs.Meaning.{given_of};
ghost use Rattle.document.specs.Policy.{Policy};
ghost use Rattle.form.specs.Walks.{givens_at};
ghost use Rattle.principals.specs.Attributes.{Attributes};
ghost use Rattle.lists.specs.Lists.{or_zero};
ghost use Rattle.text.specs.Words.{word_of};

use form::walks::{first_in, pair_end, second_in};
use principals::attributes::find_attribute;
use text::bytes::byte_at;
use workspace::layout::ATTRIBUTE_CELLS;

// How many attributes there can be, the clock's three included.
pub const VALUES: usize = 35;

// The number of the attribute of the name at a place; 0 where there is none.
pub(crate) fn attribute_number(
    text: &[u8],
    attributes: &[usize; ATTRIBUTE_CELLS],
    k: usize,
    line: &[u8],
    at: usize,
) -> usize
    ensures { (d : Policy) → Attributes text.now attributes.now k d.attributes → result ≡ or_zero (attribute_of d (word_of line.now at)) }
{
    find_attribute(text, attributes, k, line, at).unwrap_or(0)
}

// Stores that there is no value for any attribute.
fn clear_places(places: &mut [usize])
    ensures { places.new ≡ replicate (length places.old) 0 }
{
    for i in 0..places.len() {
        places[i] = 0;
    }
}

// Stores where the value for attribute n stands, unless one is stored.
fn keep_first(places: &mut [usize], n: usize, v: usize)
    requires { v < 18446744073709551615 }
    ensures { places.new ≡ first_kept places.old n v }
{
    if n < places.len() {
        if places[n] == 0 {
            places[n] = v + 1;
        }
    }
}

// Stores where the values stand that the line gives from a place on, where none was stored yet.
fn walk_values(
    text: &[u8],
    attributes: &[usize; ATTRIBUTE_CELLS],
    k: usize,
    line: &[u8],
    place: usize,
    places: &mut [usize],
)
    ensures { (d : Policy) → Attributes text.now attributes.now k d.attributes → length places.old ≡ 35 → places.old ≡ replicate (length places.old) 0 → Values line.now (map (given_of d) (givens_at line.now place)) places.new }
{
    let mut j = place;
    while byte_at(line, j) == b' ' {
        let a = first_in(line, j + 1);
        let v = second_in(line, j + 1);
        let n = attribute_number(text, attributes, k, line, a);
        keep_first(places, n, v);
        j = pair_end(line, j + 1);
    }
}

// Stores where the values stand that the user line gives from a place on, by the numbers of their attributes: the first for each.
// A stored number is one more than the place in the line, and 0 says that there is none.
pub fn store_values(
    text: &[u8],
    attributes: &[usize; ATTRIBUTE_CELLS],
    k: usize,
    line: &[u8],
    place: usize,
    values: &mut [usize; VALUES],
)
    ensures { (d : Policy) → Attributes text.now attributes.now k d.attributes → Values line.now (map (given_of d) (givens_at line.now place)) values.new }
{
    clear_places(values);
    walk_values(text, attributes, k, line, place, values);
}
