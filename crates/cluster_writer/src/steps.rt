// The LDC cluster, then the BIS cluster.
ghost use Rattle.std.specs.Prelude.{◌≡◌, ◌<◌, length};
ghost use Rattle.remainders.specs.steps.Remainders.{AreRemainders};
ghost use Rattle.answer.specs.declared.Answer.TheVariants.{Done};
ghost use Rattle.address.specs.Judged.{judged};
ghost use Rattle.cluster.specs.EccCluster.{scrambled_frames, ecc_cluster};
ghost use Rattle.ldc_words.specs.steps.Eighth.{LdcPut, frames_of};
ghost use Rattle.sizes.specs.Sizes.{work_size, side_size, user_size};

use address::Psn;
use remainders::Remainders;

// Data frames 4 e to 4 e + 3, scrambled.
fn put_frames(user: &[u8], stream: &[u8], e: usize, frames: &mut [u8])
    requires { (length user.now ≡ user_size) × ((length frames.old ≡ 8208) × (e < 8)) }
    ensures { frames.new ≡ frames_of (scrambled_frames stream.now user.now) e }
{
    for f in 0..4usize {
        let from = 8192 * e + 2048 * f;
        let end = from + 2048;
        let to = 2052 * f;
        let past = to + 2052;
        sector::data_frame(&user[from..end], stream, &mut frames[to..past]);
    }
}

// The LDC cluster: the data frames of one eighth after the other, completed to code words, to their places.
fn put_ldc(table: &Remainders, user: &[u8], stream: &[u8], work: &mut [u8])
    requires { AreRemainders table.now × ((length user.now ≡ user_size) × (length work.old ≡ work_size)) }
    ensures { LdcPut (scrambled_frames stream.now user.now) 304 work.old work.new }
{
    let mut frames = ldc_words::steps::no_frames();
    let mut words = ldc_words::steps::no_words();
    for e in 0..8usize {
        put_frames(user, stream, e, &mut frames);
        ldc_parity::steps::complete_words(table, &frames, &mut words);
        ldc_words::steps::put_words(&words, e, work);
    }
}

// The ECC cluster of 65,536 user bytes, an accepted PSN and 592 bytes of side data.
pub fn encode(user: &[u8], psn: Psn, side: &[u8], work: &mut [u8])
    requires { ((length user.now ≡ user_size) × (length side.now ≡ side_size)) × ((length work.old ≡ work_size) × (judged psn.0 ≡ Done)) }
    ensures { work.new ≡ ecc_cluster user.now psn.0 side.now }
{
    let mut table = remainders::steps::no_remainders();
    remainders::steps::fill_remainders(&mut table);
    let stream = scrambling::scrambling(psn);
    put_ldc(&table, user, &stream, work);
    let block = bis_writer::steps::block(&table, psn, side);
    bis_cluster::steps::put_bis(work, &block);
}
