// A queue that shares one marking machine among four benches (document 02, W-214).
#![tactic(auto)]

ghost use Rattle.std.specs.Prelude.{◌≡◌, ◌<◌, get_or};
ghost use Rattle.order_queue.specs.Records.{request_of};
ghost use Rattle.order_queue.specs.Queue.{no_order, empty_queue, begins_at, next_bench, quiet, bench_answer, waiting_answer, submit_answer, with_order, submitted, order_taken, served, handled};

use address::Psn;
use answer::Answer;
use big_endian::steps::word_at;

// How many benches there are.
pub const BENCHES: usize = 4;

// The bench that a serve reports where none is waiting.
const NONE_WAITING: u8 = 255;

// The order of a bench. The PSN counts where it is waiting.
#[derive(Clone, Copy)]
pub struct Order {
    pub waiting: bool,
    pub psn: Psn,
}

const NO_ORDER: Order = Order {
    waiting: false,
    psn: Psn(0),
};

// The orders of benches 0 to 3, and the bench at which the next serve begins; a turn above 3 stands for 0.
#[derive(Clone, Copy)]
pub struct Queue {
    pub orders: [Order; BENCHES],
    pub turn: u8,
}

// What a record asks for.
#[derive(Clone, Copy)]
pub enum Request {
    Submit(u8, Psn),
    Serve,
    // Short, long or unknown.
    Unknown,
}

// The queue behind a record, what is answered, and for a serve the bench and the PSN of its order.
#[derive(Clone, Copy)]
pub struct Handled {
    pub queue: Queue,
    pub answer: Answer,
    pub bench: u8,
    pub psn: Psn,
}

impl Queue {
    // No bench is waiting, and the turn is bench 0's.
    pub fn empty() -> Queue
        ensures { result ≡ empty_queue }
    {
        Queue {
            orders: [NO_ORDER; BENCHES],
            turn: 0,
        }
    }
}

// ---- records

// The byte of kind, 0 for a record without any.
fn kind_of(bytes: &[u8]) -> u8
    ensures { result ≡ get_or bytes.now 0 0 }
{
    if 0 < bytes.len() {
        return bytes[0];
    }
    0
}

// What a record asks for.
fn request_of(bytes: &[u8]) -> Request
    ensures { result ≡ request_of bytes.now }
{
    let kind = kind_of(bytes);
    if kind == 1 {
        if bytes.len() == 6 {
            return Request::Submit(bytes[1], Psn(word_at(bytes, 2)));
        }
        return Request::Unknown;
    }
    if kind == 2 {
        if bytes.len() == 1 {
            return Request::Serve;
        }
    }
    Request::Unknown
}

// ---- a submit

// The order of a bench; none for a bench above 3.
fn order_of(orders: [Order; BENCHES], bench: usize) -> Order
    ensures { result ≡ get_or orders bench no_order }
{
    if bench < BENCHES {
        return orders[bench];
    }
    NO_ORDER
}

// Bench 0 and PSN 0 are reported.
fn quiet(queue: Queue, answer: Answer) -> Handled
    ensures { result ≡ quiet queue answer }
{
    Handled {
        queue,
        answer,
        bench: 0,
        psn: Psn(0),
    }
}

fn judge_bench(bench: u8) -> Answer
    ensures { result ≡ bench_answer bench }
{
    if bench < 4 {
        return Answer::Done;
    }
    Answer::NoBench
}

fn judge_waiting(queue: Queue, bench: u8) -> Answer
    ensures { result ≡ waiting_answer queue bench }
{
    let orders = queue.orders;
    let order = order_of(orders, bench as usize);
    if order.waiting {
        return Answer::BenchWaiting;
    }
    Answer::Done
}

// 27, then 28, then 6 and 7.
fn judge_submit(queue: Queue, bench: u8, psn: Psn) -> Answer
    ensures { result ≡ submit_answer queue bench psn.0 }
{
    let number = judge_bench(bench);
    let waiting = judge_waiting(queue, bench);
    let accepted = psn.judge();
    number.and_then(waiting.and_then(accepted))
}

// The queue with an order of a bench.
fn with_order(queue: Queue, bench: u8, psn: Psn) -> Queue
    ensures { bench < 4 → result ≡ with_order queue bench psn }
{
    let mut orders = queue.orders;
    let at = bench as usize;
    if BENCHES <= at {
        return queue;
    }
    orders[at] = Order { waiting: true, psn };
    Queue {
        orders,
        turn: queue.turn,
    }
}

fn submit(queue: Queue, bench: u8, psn: Psn) -> Handled
    ensures { result ≡ submitted queue bench psn }
{
    let answer = judge_submit(queue, bench, psn);
    let longer = with_order(queue, bench, psn);
    if answer.is_done() {
        return quiet(longer, answer);
    }
    quiet(queue, answer)
}

// ---- a serve

// The bench at which a serve begins.
fn begins_at(turn: u8) -> usize
    ensures { (result < 4) × (result ≡ begins_at turn) }
{
    if turn < 4 {
        return turn as usize;
    }
    0
}

// The bench whose order is next, going round from there; 4 where none is waiting.
fn next_bench(queue: Queue) -> usize
    ensures { result ≡ next_bench queue }
{
    let orders = queue.orders;
    let turn = queue.turn;
    let mut bench = begins_at(turn);
    let mut passed = 0;
    while passed < BENCHES {
        let order = order_of(orders, bench);
        if order.waiting {
            return bench;
        }
        bench = (bench + 1) % BENCHES;
        passed += 1;
    }
    BENCHES
}

// The order of a bench is reported and gone.
fn take(queue: Queue, bench: usize) -> Handled
    requires { bench < 4 }
    ensures { result ≡ order_taken queue bench }
{
    let mut orders = queue.orders;
    let order = order_of(orders, bench);
    let psn = order.psn;
    let waiting = false;
    orders[bench] = Order {
        waiting,
        psn: Psn(0),
    };
    let turn = ((bench + 1) % BENCHES) as u8;
    Handled {
        queue: Queue { orders, turn },
        answer: Answer::Done,
        bench: bench as u8,
        psn,
    }
}

fn serve(queue: Queue) -> Handled
    ensures { result ≡ served queue }
{
    let bench = next_bench(queue);
    if bench < BENCHES {
        return take(queue, bench);
    }
    Handled {
        queue,
        answer: Answer::Done,
        bench: NONE_WAITING,
        psn: Psn(0),
    }
}

// ---- a record

// Handles a record: 0, or 26, 27, 28, 6 and 7, tested in this order, which leave the queue as it was.
pub fn handle(queue: Queue, bytes: &[u8]) -> Handled
    ensures { result ≡ handled queue bytes.now }
{
    let request = request_of(bytes);
    match request {
        Request::Submit(bench, psn) => submit(queue, bench, psn),
        Request::Serve => serve(queue),
        Request::Unknown => quiet(queue, Answer::WrongRecord),
    }
}
