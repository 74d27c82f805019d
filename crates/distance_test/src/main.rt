// Document 02, W-208. Standard input has LDC column 0 of an outside vector, 248 bytes out of its ECC cluster. Prints at how many lengths the generator is
// right and 33 places from zeros; whether wrong bytes of the column that was read are noticed; and in how many places the LDC columns of clusters with other
// user bytes differ.
#![tactic(auto)]

mod clusters;
mod columns;

fn main() {
    let mut table = remainders::steps::no_remainders();
    remainders::steps::fill_remainders(&mut table);
    columns::lengths(&table);
    columns::wrong_bytes(&table);
    clusters::one_byte();
    clusters::other_bytes();
}
