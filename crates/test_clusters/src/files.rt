// Files of a program's data folder.
ghost use Rattle.io.specs.Counts.{IsPrefixLen};

use console::Complaints;
use std::rt::Files;
use test_support::compare::copy;

// A name and what stands behind it, in a path; how many bytes they have.
fn join(name: &[u8], kind: &[u8], path: &mut [u8]) -> usize
    ensures { IsPrefixLen result path.new }
{
    copy(name, path, 0);
    copy(kind, path, name.len());
    io::count((name.len() % 64 + kind.len() % 64) as isize, path)
}

// How many bytes at the start of a buffer the file gave; says on standard error where it cannot be opened.
fn read(rt: &(impl Files + Complaints), path: &[u8], bytes: &mut [u8]) -> usize {
    match console::open(rt, path) {
        Ok(mut file) => console::read_full(&mut file, bytes),
        Err(error) => {
            console::fail(rt, path, error);
            0
        }
    }
}

// Fills a buffer from the file of this name and kind; says on standard error which cannot be opened, and on standard output that it is too short.
pub fn load(rt: &(impl Files + Complaints), name: &[u8], kind: &[u8], bytes: &mut [u8]) {
    let mut path = [0u8; 128];
    let n = join(name, kind, &mut path);
    let got = read(rt, &path[..n], bytes);
    if got != bytes.len() {
        io::write_all(1, b"not loaded\n");
    }
}
