// The operations for programs in other languages, as a static library; include/bdre.h declares them for C. Each is one call of its export crate.
#![tactic(auto)]

ghost use Rattle.std.specs.Prelude.{Bool, ◌≡◌, ◌↔◌, length};
ghost use Rattle.writer.specs.Outcome as writer;
ghost use Rattle.reader.specs.Outcome as reader;
ghost use Rattle.writer.specs.Promise.{WritesExactly};
ghost use Rattle.reader.specs.Promise.{RightSlices, ReadsExactly};
ghost use Rattle.marker.specs.Marked.{IsImageOf, marked};
ghost use Rattle.address.specs.Conversions.{psn_to_paa, paa_to_psn, psn_to_aun, aun_to_psn};
ghost use Rattle.export_writer.specs.Exported.{writing};
ghost use Rattle.export_reader.specs.Exported.{reading};
ghost use Rattle.export_marker.specs.Exported.{marked_numbers};
ghost use Rattle.export_address.specs.Exported.{psn_seen, aun_seen, paa_seen};
ghost use Rattle.column_parity.specs.Outcome as column_parity;
ghost use Rattle.column_parity.specs.Promise.{CompletesExactly};
ghost use Rattle.export_parity.specs.Exported.{completing};
ghost use Rattle.answer_numbers.specs.Numbers.{answered};
ghost use Rattle.address_sheet.specs.Sheet.{sheet_answer};
ghost use Rattle.address_sheet.specs.Promise.{RightSheet};
ghost use Rattle.export_sheet.specs.Exported.{given_psn};
ghost use Rattle.order_queue.specs.Queue.{handled};
ghost use Rattle.export_queue.specs.Exported.{queue_given, handled_seen};
ghost use Rattle.look_ahead.specs.Outcome as look_ahead;
ghost use Rattle.export_ahead.specs.Exported.{ahead_seen};

use answer_numbers::{Answered, Converted, Marking, ReadAnswered};
use export_ahead::AheadNumbers;
use export_queue::{HandledNumbers, QueueNumbers};

// Writes the image of a cluster.
#[unsafe(no_mangle)]
pub extern "C" fn bdre_write_image(
    user: &[u8],
    psn: u32,
    side: &[u8],
    dc: &[u32],
    first: bool,
    image: &mut [u8],
    work: &mut [u8],
) -> Answered
    ensures work_after { record { number = result.number; place = result.place; image = image.new; work = work.new }
        ≡ writing (writer.outcome (record { user = user.now; psn = psn; side = side.now; dc = dc.now; first = first }) image.old work.old) }
    ensures writes_exactly { WritesExactly (record { user = user.now; psn = psn; side = side.now; dc = dc.now; first = first }) image.old work.old
        result.number image.new work.new }
{
    export_writer::write_image(user, psn, side, dc, first, image, work)
}

// Reads an image strictly.
#[unsafe(no_mangle)]
pub extern "C" fn bdre_read_image(
    image: &[u8],
    user: &mut [u8],
    side: &mut [u8],
    dc: &mut [u32],
    work: &mut [u8],
) -> ReadAnswered
    ensures work_after { record { number = result.number; place = result.place; psn = result.psn; first = result.first; lent = record { user = user.new; side = side.new; dc = dc.new; work = work.new } }
        ≡ reading (reader.outcome image.now (record { user = user.old; side = side.old; dc = dc.old; work = work.old })) }
    ensures reads_exactly { ReadsExactly image.now (record { user = user.old; side = side.old; dc = dc.old; work = work.old })
        result.number result.psn result.first (record { user = user.new; side = side.new; dc = dc.new; work = work.new }) }
{
    export_reader::read_image(image, user, side, dc, work)
}

// Marks an image: whether it is that of these user bytes, this side data and this PSN under some dc words and some first #. The other slices
// are lent to read it.
#[unsafe(no_mangle)]
pub extern "C" fn bdre_mark_image(
    psn: u32,
    user: &[u8],
    side: &[u8],
    image: &[u8],
    bytes: &mut [u8],
    control: &mut [u8],
    dc: &mut [u32],
    work: &mut [u8],
) -> Marking
    ensures work_after { record { verdict = result.verdict; number = result.number; psn = result.psn; place = result.place; lent = record { user = bytes.new; side = control.new; dc = dc.new; work = work.new } }
        ≡ marked_numbers (marked psn user.now side.now image.now (record { user = bytes.old; side = control.old; dc = dc.old; work = work.old })) }
    ensures variant { RightSlices (record { user = bytes.old; side = control.old; dc = dc.old; work = work.old })
        → (result.verdict ≡ 0) ↔ IsImageOf psn user.now side.now image.now }
{
    export_marker::mark_image(psn, user, side, image, bytes, control, dc, work)
}

// The PAA of the first word of the cluster at a PSN.
#[unsafe(no_mangle)]
pub extern "C" fn bdre_psn_to_paa(psn: u32) -> Converted
    ensures { result ≡ paa_seen (psn_to_paa psn) }
{
    export_address::psn_to_paa(psn)
}

// The AUN of an address unit, 0 to 15, of the cluster at a PSN; 0 for a unit above 15.
#[unsafe(no_mangle)]
pub extern "C" fn bdre_psn_to_aun(psn: u32, unit: u32) -> Converted
    ensures { result ≡ aun_seen (psn_to_aun psn unit) }
{
    export_address::psn_to_aun(psn, unit)
}

// The PSN of the cluster whose first word has a PAA.
#[unsafe(no_mangle)]
pub extern "C" fn bdre_paa_to_psn(paa: u32) -> Converted
    ensures { result ≡ psn_seen (paa_to_psn paa) }
{
    export_address::paa_to_psn(paa)
}

// The PSN of the cluster that holds the address unit with an AUN.
#[unsafe(no_mangle)]
pub extern "C" fn bdre_aun_to_psn(aun: u32) -> Converted
    ensures { result ≡ psn_seen (aun_to_psn aun) }
{
    export_address::aun_to_psn(aun)
}

// Writes the 32 parity bytes of a column's data.
#[unsafe(no_mangle)]
pub extern "C" fn bdre_parity(message: &[u8], parity: &mut [u8]) -> Answered
    ensures parity_after { record { number = result.number; place = result.place; parity = parity.new } ≡ completing (column_parity.outcome message.now parity.old) }
    ensures completes_exactly { CompletesExactly message.now parity.old result.number parity.new }
{
    export_parity::write_parity(message, parity)
}

// Judges a sheet of PSNs.
#[unsafe(no_mangle)]
pub extern "C" fn bdre_sheet(psns: &[u32]) -> Answered
    ensures value { result ≡ answered (sheet_answer (length psns.now) (given_psn psns.now)) }
    ensures variant { (result.number ≡ 0) ↔ RightSheet (length psns.now) (given_psn psns.now) }
{
    export_sheet::judge_sheet(psns)
}

// Handles a record of the queue of four benches.
#[unsafe(no_mangle)]
pub extern "C" fn bdre_handle_record(queue: QueueNumbers, bytes: &[u8]) -> HandledNumbers
    ensures { result ≡ handled_seen (handled (queue_given queue) bytes.now) }
{
    export_queue::handle_record(queue, bytes)
}

// The most bits that any word of a frame needs; the same for both values of the bit before the frame.
#[unsafe(no_mangle)]
pub extern "C" fn bdre_most_needed(row: &[u8], dc: u32) -> AheadNumbers
    ensures { (b : Bool) → result ≡ ahead_seen (look_ahead.outcome b row.now dc) }
{
    export_ahead::most_needed(row, dc)
}
