// The numbers beside the lent arrays: the version of the layout, then how many of each kind the arrays hold.
ghost use Rattle.std.specs.Prelude.{eqb, get_or, ◌≡◌};
ghost use Rattle.loaded.specs.Cells.{cells_of, counts_in, no_cells, version};

use index::counts::Counts;

// How many such numbers there are.
pub const CELLS: usize = 10;

// The version of the layout: another one with every change of what stands where. Memory that was never filled hardly has it.
pub const VERSION: usize = 7700003;

// Whether the arrays were filled, and by this version.
pub fn is_loaded(cells: &[usize; CELLS]) -> bool
    ensures { result ≡ eqb (get_or cells.now 0 0) version }
{
    cells[0] == VERSION
}

// How many of each kind the arrays hold.
pub fn counts_of(cells: &[usize; CELLS]) -> Counts
    ensures { result ≡ counts_in cells.now }
{
    Counts {
        purposes: cells[1],
        roles: cells[2],
        attributes: cells[3],
        users: cells[4],
        conds: cells[5],
        grants: cells[6],
        labels: cells[7],
        tables: cells[8],
        rows: cells[9],
    }
}

// Says that the arrays hold so many of each kind.
pub fn store_counts(cells: &mut [usize; CELLS], c: Counts)
    ensures { cells.new ≡ cells_of c }
{
    *cells = [
        VERSION,
        c.purposes,
        c.roles,
        c.attributes,
        c.users,
        c.conds,
        c.grants,
        c.labels,
        c.tables,
        c.rows,
    ];
}

// Says that the arrays hold no document.
pub fn store_none(cells: &mut [usize; CELLS])
    ensures { cells.new ≡ no_cells }
{
    *cells = [0, 0, 0, 0, 0, 0, 0, 0, 0, 0];
}
