// The field against a second method, with no table: the product by shift and add.
#![tactic(auto)]

use field::Gf;
use test_support::lines;

fn print(text: &[u8], a: Gf) {
    lines::hex_line(text, a.0 as u64, 2);
}

// x times a.
fn double(a: u8) -> u8 {
    if a < 128 { a * 2 } else { (a - 128) * 2 ^ 0x1d }
}

fn shift_and_add(a: u8, b: u8) -> u8 {
    let mut term = a;
    let mut bits = b;
    let mut total = 0u8;
    for _ in 0..8 {
        if bits % 2 == 1 {
            total ^= term;
        }
        term = double(term);
        bits /= 2;
    }
    total
}

// How many of the 65,536 products differ.
fn products_differing() -> u64 {
    let mut count: u64 = 0;
    for a in 0..=255u8 {
        for b in 0..=255u8 {
            if Gf(a).product(Gf(b)).0 != shift_and_add(a, b) {
                count = count.saturating_add(1);
            }
        }
    }
    count
}

// How many elements other than 0 do not give 1 with their inverse.
fn inverses_wrong() -> u64 {
    let mut count: u64 = 0;
    for a in 1..=255u8 {
        if shift_and_add(a, Gf(a).inverse().0) != 1 {
            count = count.saturating_add(1);
        }
    }
    count
}

// All products as the digits of one number to the base 31, modulo 2^32.
fn digest() -> u64 {
    let mut d: u64 = 0;
    for a in 0..=255u8 {
        for b in 0..=255u8 {
            let p = Gf(a).product(Gf(b));
            d = (d % 0x1_0000_0000 * 31 + u64::from(p.0)) % 0x1_0000_0000;
        }
    }
    d
}

fn sums_and_inverses() {
    print(b"02 x 80 = ", Gf(0x02).product(Gf(0x80)));
    print(b"53 + ca = ", Gf(0x53).sum(Gf(0xca)));
    print(b"inverse of 02 = ", Gf::ALPHA.inverse());
    print(b"inverse of 00 = ", Gf::ZERO.inverse());
}

fn powers() {
    print(b"02 to the power 255 = ", Gf::ALPHA.power(255));
    print(
        b"02 to the power 18446744073709551614 = ",
        Gf::ALPHA.power(18446744073709551614),
    );
    print(b"00 to the power 0 = ", Gf::ZERO.power(0));
}

fn main() {
    sums_and_inverses();
    powers();
    lines::number_line(b"products that differ: ", products_differing());
    lines::number_line(b"inverses that are wrong: ", inverses_wrong());
    lines::hex_line(b"digest of all products: ", digest(), 8);
}
