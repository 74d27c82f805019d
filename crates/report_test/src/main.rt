// Every answer, verdict and tally in words, and what was read.
#![tactic(auto)]

use address::Psn;
use answer::Answer;
use gaps::Tally;
use verdict::Verdict;

fn print_answer(rt: &impl Print, answer: Answer) {
    console::print(rt, answer_report::answer_text(answer));
}

fn lengths_and_psn(rt: &impl Print) {
    print_answer(rt, Answer::Done);
    print_answer(rt, Answer::WrongUser(0));
    print_answer(rt, Answer::WrongSide);
    print_answer(rt, Answer::WrongDc);
    print_answer(rt, Answer::WrongImage);
    print_answer(rt, Answer::WrongWork);
    print_answer(rt, Answer::NoMultiple(0));
    print_answer(rt, Answer::NoZone(0));
    print_answer(rt, Answer::DcWord(495));
}

fn images(rt: &impl Print) {
    print_answer(rt, Answer::LastBits);
    print_answer(rt, Answer::Sync(496));
    print_answer(rt, Answer::Frame(100));
    print_answer(rt, Answer::BisColumn(23));
    print_answer(rt, Answer::AddressUnit(15));
    print_answer(rt, Answer::NoPsn);
    print_answer(rt, Answer::LdcColumn(303));
    print_answer(rt, Answer::Sector(31));
}

fn frames(rt: &impl Print) {
    print_answer(rt, Answer::WrongRow);
}

fn columns(rt: &impl Print) {
    print_answer(rt, Answer::WrongColumn);
}

fn sheets(rt: &impl Print) {
    print_answer(rt, Answer::WrongCount);
    print_answer(rt, Answer::NoMultiple(63));
    print_answer(rt, Answer::NoZone(62));
    print_answer(rt, Answer::Repeated(1));
}

fn queues(rt: &impl Print) {
    print_answer(rt, Answer::WrongRecord);
    print_answer(rt, Answer::NoBench);
    print_answer(rt, Answer::BenchWaiting);
}

// The longest place.
fn longest(rt: &impl Print) {
    print_answer(rt, Answer::AddressUnit(18446744073709551615));
}

fn verdicts(rt: &impl Print) {
    console::print(rt, verdict_report::verdict_text(Verdict::Pass));
    console::print(
        rt,
        verdict_report::verdict_text(Verdict::Refused(Answer::Frame(4))),
    );
    console::print(
        rt,
        verdict_report::verdict_text(Verdict::OtherPsn(Psn(0x00A8_13E0))),
    );
    console::print(rt, verdict_report::verdict_text(Verdict::OtherUser(65535)));
    console::print(rt, verdict_report::verdict_text(Verdict::OtherSide(0)));
}

fn reads(rt: &impl Print) {
    console::print(rt, psn_report::read_text(Psn(0), false));
    console::print(rt, psn_report::read_text(Psn(0x0010_0000), true));
    console::print(rt, psn_report::read_text(Psn(0xFEDC_BA98), true));
}

fn tallies(rt: &impl Print) {
    console::print(
        rt,
        tallying::tally_text(Tally {
            accepted: true,
            counts: [0, 9, 10, 160, 319, 4294967295, 1000000000, 2],
        }),
    );
    console::print(
        rt,
        tallying::tally_text(Tally {
            accepted: false,
            counts: [1, 2, 3, 4, 5, 6, 7, 8],
        }),
    );
}

fn main(rt: HostRuntime) {
    lengths_and_psn(&rt);
    images(&rt);
    frames(&rt);
    columns(&rt);
    sheets(&rt);
    queues(&rt);
    longest(&rt);
    verdicts(&rt);
    reads(&rt);
    tallies(&rt);
}
