// How many of each kind the workspace holds.
#[derive(Clone, Copy)]
pub struct Counts {
    pub purposes: usize,
    pub roles: usize,
    pub attributes: usize,
    pub users: usize,
    pub conds: usize,
    pub grants: usize,
    pub labels: usize,
    pub tables: usize,
    pub rows: usize,
}
