// Imports a comma-separated file: standard input is the file, the two arguments are the table and the label. Prints one row line a
// record, or `(refused NUMBER file START LENGTH)`. It lends as many bytes as a document may have. Where it is started otherwise, the
// file is longer than it has room for, or something can't be read or written, standard error says so.
#![tactic(auto)]

ghost use Rattle.programs.specs.Input.{ReadsWithin};

use import::importing::import_rows;
use programs::arguments;
use programs::arguments::{is_given, read_argument};
use programs::input::read_all;
use programs::output::write_first;
use programs::refusals::write_refused;
use std::rt::Env;

// What is lent: more lines than a document has room for are 21.
const ROOM: usize = 60000;

// Room for a file of 2^18 bytes, and for one byte more, which tells a longer one: four times what is lent.
const FILE_ROOM: usize = 262145;

fn import_into<R: Print + Eprint>(rt: &R, file: &[u8], table: &[u8], label: &[u8], out: &mut [u8]) {
    match import_rows(file, table, label, out) {
        Err(r) => {
            write_refused(rt, r);
        }
        Ok(len) => {
            write_first(rt, len, out);
        }
    }
}

// An argument that is longer than a path is read as empty: neither is a name.
fn import_named<R: Env + Print + Eprint>(rt: &R, file: &[u8]) {
    let mut table = [0u8; arguments::ROOM];
    let t = read_argument(rt, 1, &mut table);
    let mut label = [0u8; arguments::ROOM];
    let l = read_argument(rt, 2, &mut label);
    let mut out = [0u8; ROOM];
    import_into(rt, file, &table[..t], &label[..l], &mut out);
}

fn read_file<R: Input + Eprint>(rt: &R, file: &mut [u8; FILE_ROOM]) -> Option<usize>
    ensures { ReadsWithin file.new result }
{
    read_all(rt, &mut rt.reader(), b"standard input", file)
}

fn import_input<R: Input + Env + Print + Eprint>(rt: &R) {
    let mut file = [0u8; FILE_ROOM];
    let Some(n) = read_file(rt, &mut file) else {
        return;
    };
    if n == FILE_ROOM {
        let _ = eprintln!(rt; "importing: the file is longer than 262144 bytes");
        return;
    }
    import_named(rt, &file[..n]);
}

fn main(rt: HostRuntime) {
    if !is_given(&rt, 2) || is_given(&rt, 3) {
        let _ = eprintln!(rt; "usage: importing TABLE LABEL, with the file on standard input");
        return;
    }
    import_input(&rt);
}
