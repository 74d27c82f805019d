// `count` pairs are given as the number of their bits.
ghost use Rattle.std.specs.Prelude.{false, ◌≡◌, ◌*◌, ◌%◌, ◌^◌, ◌<◌, ◌≤◌, length, SomeIff};
ghost use mathlib.Core.List.{tail};
ghost use Rattle.modulation.specs.Modulation.{two_number, row_at, starts, starts_with010, allowed, fits, modulate_from, modulate};
ghost use Rattle.conversion.specs.steps.Few.{few_pairs, standing_row, Fitting, BitsGiven};

use conversion::{Few, When};

// The last `count` pairs.
fn last_pairs(count: usize, pairs: u32) -> u32
    requires { count ≤ 6 }
    ensures { result ≡ pairs % 2 ^ (2 * count) }
{
    pairs % (1u32 << (2 * count))
}

// Whether the pairs of row k stand first.
fn pairs_stand(k: usize, count: usize, pairs: u32) -> bool
    requires { (k < 16) × ((count ≤ 6) × (pairs < 2 ^ (2 * count))) }
    ensures { result ≡ starts two_number (row_at k).pairs (few_pairs count pairs) }
{
    let r = conversion_rows::steps::row_at(k);
    if count < r.pairs {
        return false;
    }
    pairs >> (2 * (count - r.pairs)) == r.data_bits as u32
}

// The first row whose pairs stand first.
fn standing_row(count: usize, pairs: u32) -> Option<usize>
    requires { (count ≤ 6) × (pairs < 2 ^ (2 * count)) }
    ensures { SomeIff result (standing_row (few_pairs count pairs) < 16) (standing_row (few_pairs count pairs)) }
{
    (0..16).find(|&k| pairs_stand(k, count, pairs))
}

// Whether the modulation bits of the pairs start with 010. Conditions do not change that: the first row that stands there decides it.
fn starts_with_010(count: usize, pairs: u32) -> bool
    requires { (count ≤ 6) × (pairs < 2 ^ (2 * count)) }
    ensures { result ≡ starts_with010 (modulate false (few_pairs count pairs)).groups }
{
    match standing_row(count, pairs) {
        Some(k) => conversion_rows::steps::leads_010(k),
        None => false,
    }
}

// Whether the condition of row k, whose pairs stand first, holds after the bit before.
fn allowed_at(k: usize, count: usize, pairs: u32, before: bool) -> bool
    requires { (k < 16) × ((count ≤ 6) × ((pairs < 2 ^ (2 * count)) × (length (row_at k).pairs ≤ count))) }
    ensures { result ≡ allowed (row_at k) (row_at k).when before (few_pairs count pairs) (modulate_from (tail (few_pairs count pairs))) }
{
    let r = conversion_rows::steps::row_at(k);
    let len = r.pairs;
    match r.when {
        When::Always => true,
        When::AfterOne => before,
        When::AfterZero => !before,
        When::Before010 => starts_with_010(count - len, last_pairs(count - len, pairs)),
        When::AtEnd => len == count,
    }
}

// Whether row k fits, after the bit before.
fn fits_at(k: usize, count: usize, pairs: u32, before: bool) -> bool
    requires { (k < 16) × ((count ≤ 6) × (pairs < 2 ^ (2 * count))) }
    ensures { result ≡ fits (row_at k) before (few_pairs count pairs) (modulate_from (tail (few_pairs count pairs))) }
{
    pairs_stand(k, count, pairs) && allowed_at(k, count, pairs, before)
}

// The row of the first word, after the bit before: the first that fits.
fn fitting_row(count: usize, pairs: u32, before: bool) -> usize
    requires { ((0 < count) × (count ≤ 6)) × (pairs < 2 ^ (2 * count)) }
    ensures { Fitting before count pairs result }
{
    (0..16).find(|&k| fits_at(k, count, pairs, before)).unwrap()
}

// At most six pairs modulated after the bit before, as if the frame ended there.
pub fn modulate(count: usize, pairs: u32, before: bool) -> Few
    requires { (count ≤ 6) × (pairs < 2 ^ (2 * count)) }
    ensures { BitsGiven (modulate before (few_pairs count pairs)) result.value result.terminated }
{
    let mut value = 0;
    let mut terminated = false;
    let mut bit = before;
    let mut left = count;
    let mut rest = pairs;
    while 0 < left {
        let k = fitting_row(left, rest, bit);
        value = conversion_rows::steps::followed(value, k);
        terminated |= conversion_rows::steps::is_terminating(k);
        bit = conversion_rows::steps::ends_in_one(k);
        left -= conversion_rows::steps::row_len(k);
        rest = last_pairs(left, rest);
    }
    Few { value, terminated }
}
