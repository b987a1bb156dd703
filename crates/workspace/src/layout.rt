// How large the lent arrays are: how many of each kind there may be, and how many numbers hold them (specs/ says, kind by kind,
// what stands where).
use purpose::{LIMIT, WORDS};

// How many slots there are for names: purposes and roles are looked up by a name's hash.
pub const SLOTS: usize = 1024;

// How many words of 64 bits tell which names were met in a line.
pub const MET_WORDS: usize = 2048;

pub const PURPOSES: usize = LIMIT;

pub const PURPOSE_CELLS: usize = 3 * PURPOSES + SLOTS;

pub const ROLES: usize = 64;

pub const ROLE_CELLS: usize = 3 * ROLES + SLOTS;

pub const ATTRIBUTES: usize = 32;

pub const ATTRIBUTE_CELLS: usize = 3 * ATTRIBUTES;

pub const COND_ROLES: usize = 64;

pub const COND_ROLE_CELLS: usize = 6 * COND_ROLES;

pub const GRANTS: usize = 128;

pub const GRANT_CELLS: usize = 2 * GRANTS;

pub const USERS: usize = 256;

pub const USER_CELLS: usize = 6 * USERS;

pub const LABELS: usize = 64;

pub const SET_WORDS: usize = 2 * LABELS * WORDS;

// What labels say of a purpose: from 0 on whether each allows it, and then whether each denies it.
pub const VERDICTS: usize = 2 * LABELS;

// Tables: their names from 0, then their schemes, labels and numbers of columns, `COLUMNS` places of each kind for a table, and what
// later lines say of them: whether they are public, their weak and their strong labels.
pub const TABLES: usize = 8;

pub const COLUMNS: usize = 16;

pub const TABLE_SCHEMES: usize = TABLES;

pub const TABLE_LABELS: usize = 2 * TABLES;

pub const TABLE_WIDTHS: usize = 3 * TABLES;

pub const COLUMN_NAMES: usize = 4 * TABLES;

pub const COLUMN_KINDS: usize = COLUMN_NAMES + COLUMNS * TABLES;

pub const COLUMN_LABELS: usize = COLUMN_KINDS + COLUMNS * TABLES;

pub const TABLE_NOTES: usize = COLUMN_LABELS + COLUMNS * TABLES;

pub const TABLE_WEAK: usize = TABLE_NOTES + TABLES;

pub const TABLE_STRONG: usize = TABLE_WEAK + TABLES;

pub const TABLE_CELLS: usize = TABLE_STRONG + TABLES;

// Rows: their tables from 0, then their numbers of values and of labels, and for each row `COLUMNS` places for values and
// `LABEL_ROOM` for labels: a nest table's rows have one more than values.
pub const ROWS: usize = 1024;

pub const ROW_WIDTHS: usize = ROWS;

pub const ROW_MARKS: usize = 2 * ROWS;

pub const ROW_VALUES: usize = 3 * ROWS;

pub const ROW_LABELS: usize = ROW_VALUES + COLUMNS * ROWS;

pub const LABEL_ROOM: usize = COLUMNS + 1;

pub const ROW_CELLS: usize = ROW_LABELS + LABEL_ROOM * ROWS;
