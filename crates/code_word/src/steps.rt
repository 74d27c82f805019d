// Parity and roots, eight bytes a step.
ghost use Rattle.std.specs.Prelude.{◌≡◌, ◌+◌, ◌<◌, ◌≤◌, length, get_or, take, drop};
ghost use Rattle.laws.specs.Bytes.{Bytes};
ghost use Rattle.laws.specs.Tabulate.{tabulate};
ghost use Rattle.column.specs.Column.{remainder, parity, has_roots};
ghost use Rattle.register.specs.steps.Register.{divisor, leaves, Padded, front, leaves_added};
ghost use Rattle.remainders.specs.steps.Remainders.{AreRemainders};

use register::Register;
use register::steps::{plus, pushed_byte, zeros};
use remainders::Remainders;

fn entry(table: &Remainders, k: usize, b: usize, j: usize) -> u8
    requires { AreRemainders table.now × ((k < 8) × ((b < 256) × (j < 32))) }
    ensures { result ≡ get_or (leaves k b) j 0 }
{
    table[8192 * k + 32 * b + j]
}

// The register's first eight bytes, which come out, with those of the message from `at` on.
fn fronts(was: &Register, message: &[u8], at: usize) -> [usize; 8]
    requires { at + 8 ≤ length message.now }
    ensures { (result ≡ tabulate 8 (front was.now message.now at)) × Bytes result }
{
    let mut eight = [0usize; 8];
    for k in 0..8 {
        eight[k] = usize::from(plus(message[at + k], was[k]));
    }
    eight
}

// Byte j of what the eight leave, added to a byte.
fn added(table: &Remainders, eight: [usize; 8], j: usize, byte: u8) -> u8
    requires { AreRemainders table.now × (Bytes eight × (j < 32)) }
    ensures { result ≡ leaves_added eight j byte 8 }
{
    let mut v = byte;
    for k in 0..8 {
        v = plus(v, entry(table, k, eight[7 - k], j));
    }
    v
}

// The register behind the eight bytes from `at` on.
fn pushed_eight(table: &Remainders, was: Register, message: &[u8], at: usize) -> Register
    requires { AreRemainders table.now × (Padded was × (at + 8 ≤ length message.now)) }
    ensures { Padded result × (take 32 result ≡ remainder divisor (take 32 was) (take 8 (drop at message.now))) }
{
    let eight = fronts(&was, message, at);
    let mut next = zeros();
    for j in 0..32 {
        next[j] = added(table, eight, j, was[j + 8]);
    }
    next
}

// The register behind a message: its eights, then the bytes that are left.
fn divided(table: &Remainders, message: &[u8]) -> Register
    requires { AreRemainders table.now }
    ensures { Padded result × (take 32 result ≡ parity 32 message.now) }
{
    let mut register = zeros();
    let eights = message.len() / 8;
    for k in 0..eights {
        let next = pushed_eight(table, register, message, 8 * k);
        register = next;
    }
    for &byte in &message[8 * eights..] {
        let next = pushed_byte(table, register, byte);
        register = next;
    }
    register
}

// The parity of a message, whatever its length: LDC's of 216 bytes, BIS's of 30, those of `column_parity`.
pub fn parity_32_by(table: &Remainders, message: &[u8], out: &mut [u8; 32])
    requires { AreRemainders table.now × (length out.old ≡ 32) }
    ensures { out.new ≡ parity 32 message.now }
{
    let register = divided(table, message);
    out.copy_from_slice(&register[..32]);
}

// Whether a column, LDC's, BIS's or another, has its 32 roots: whether its last 32 bytes are the parity of those before.
pub fn is_code_word(table: &Remainders, column: &[u8]) -> bool
    requires { AreRemainders table.now × (32 ≤ length column.now) }
    ensures { result ≡ has_roots 32 column.now }
{
    let n = column.len() - 32;
    let mut parity = [0u8; 32];
    parity_32_by(table, &column[..n], &mut parity);
    column.ends_with(&parity)
}
