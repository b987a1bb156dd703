// The constants that a condition compares with, each read by the type of its column.
ghost use Rattle.std.specs.Prelude.{◌≡◌};
ghost use Rattle.condition.specs.Answers.{kind_of};
ghost use Rattle.judging.specs.Constants.{ConstantOf};
ghost use Rattle.text.specs.Words.{written_at};

use calendar::reading::read_date;
use condition::kinds::Kind;
use text::numbers::rank_at;
use text::words::name_end;

// A constant as it is read: 1 if it is of the type and else 0, and its rank, if it is a number or a date.
#[derive(Clone, Copy)]
pub(crate) struct Constant {
    pub fits: usize,
    pub rank: usize,
}

// A rank, as a number of the array.
fn rank_number(n: u64) -> usize
    ensures { result ≡ n }
{
    n as usize
}

// Reads the constant at a place of the query, where one of the type should stand.
pub(crate) fn read_constant(query: &[u8], at: usize, kind: Kind) -> Constant
    ensures { ConstantOf (kind_of kind) (written_at query.now at) result }
{
    match kind {
        Kind::Num => match rank_at(query, at) {
            Some(n) => Constant {
                fits: 1,
                rank: rank_number(n),
            },
            None => Constant { fits: 0, rank: 0 },
        },
        Kind::Name => {
            if name_end(query, at).is_some() {
                Constant { fits: 1, rank: 0 }
            } else {
                Constant { fits: 0, rank: 0 }
            }
        }
        Kind::Date => match read_date(query, at) {
            Some((_, Some(r))) => Constant {
                fits: 1,
                rank: rank_number(r),
            },
            Some((_, None)) => Constant { fits: 1, rank: 0 },
            None => Constant { fits: 0, rank: 0 },
        },
    }
}
