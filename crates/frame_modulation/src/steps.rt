// A frame as words, sixteen bits at a time by the table; and of a row and a dc word.
ghost use Rattle.std.specs.Prelude.{◌≡◌, length};
ghost use Rattle.frame.specs.Frame.{frame_pairs};
ghost use Rattle.modulator.specs.steps.Table.{lent_table};
ghost use Rattle.modulator.specs.steps.Put.{FramePut};
ghost use Rattle.modulation.specs.Bits.{pairs};
ghost use Rattle.modulation.specs.steps.Words.{bits_in, Words};
ghost use Rattle.frame_modulation.specs.steps.Around.{Around};
ghost use Rattle.sizes.specs.Sizes.{row_size};

use modulator::Table;

// The frame in words modulated into 242 bytes, behind the `lag` low bits of `first`, of which the last is the bit before, and before the bits
// of `last`. Answers whether the frame ended by a terminating row.
fn modulate_words(
    table: &Table,
    words: &[u64; 29],
    first: u64,
    lag: usize,
    last: u8,
    out: &mut [u8],
) -> bool
    requires { ((table.now ≡ lent_table) × (Words words.now × (length out.old ≡ 242))) × Around first lag last }
    ensures { FramePut first lag last (pairs (bits_in words.now)) out.new result }
{
    let mut state = held_bits::steps::odd(first);
    let mut held = first;
    let mut place = 20;
    for k in 0..79 {
        let sixteen = weaving::steps::sixteen_at(words, place);
        let one = held_bits::steps::byte_at(table, state, sixteen / 256);
        let two = held_bits::steps::byte_at(
            table,
            modulator_table::steps::state(one),
            sixteen % 256,
        );
        let all = held_bits::steps::more(held_bits::steps::more(held, one), two);
        held_bits::steps::put_three(out, 3 * k, held_bits::steps::high(all, lag));
        held = held_bits::steps::low(all, lag);
        state = modulator_table::steps::state(two);
        place = weaving::steps::sixteen_on(place);
    }
    let end = held_bits::steps::last_at(table, state, weaving::steps::last_two(words));
    let all = held_bits::steps::ended(held, end);
    held_bits::steps::put_five(out, 237, held_bits::steps::closed(all, lag, last));
    end % 2 == 1
}

// The same of a row and a dc word.
pub fn modulate(
    table: &Table,
    row: &[u8],
    dc: u32,
    first: u64,
    lag: usize,
    last: u8,
    out: &mut [u8],
) -> bool
    requires { ((table.now ≡ lent_table) × ((length row.now ≡ row_size) × (length out.old ≡ 242))) × Around first lag last }
    ensures { FramePut first lag last (frame_pairs row.now dc) out.new result }
{
    let mut words = frame_bits::steps::no_words();
    weaving::steps::frame_words(row, dc, &mut words);
    modulate_words(table, &words, first, lag, last, out)
}
