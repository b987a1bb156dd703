// Storing a number in an array, and the numbers of types.
ghost use Rattle.std.specs.Prelude.{set, ◌≡◌};
ghost use Rattle.condition.specs.Answers.{kind_of};
ghost use Rattle.workspace.specs.Cells.{kind_of_cell};

use condition::kinds::Kind;

// The number v at a place; nothing is stored behind the array's end.
pub fn put(ws: &mut [usize], at: usize, v: usize)
    ensures { ws.new ≡ set ws.old at v }
{
    if at < ws.len() {
        ws[at] = v;
    }
}

// The number of a type.
pub fn kind_cell(kind: Kind) -> usize
    ensures { kind_of_cell result ≡ kind_of kind }
{
    match kind {
        Kind::Num => 0,
        Kind::Name => 1,
        Kind::Date => 2,
    }
}

// The type of a number.
pub fn kind_by(n: usize) -> Kind
    ensures { kind_of result ≡ kind_of_cell n }
{
    if n == 0 {
        return Kind::Num;
    }
    if n == 1 {
        return Kind::Name;
    }
    Kind::Date
}
