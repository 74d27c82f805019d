// States, most of which no run from an empty queue reaches: every set of waiting benches under turns that name a bench and under others. Prints turn and set, then
// for each of four records answer, place, bench and PSN, the turn behind it, and whether each bench waits, with its PSN; an independent program printed it.
#![tactic(auto)]

use address::Psn;
use order_queue::{Handled, Order, Queue};
use test_support::lines;

// A bench that does not wait holds a PSN, too.
fn order(waiting: u32, psn: u32) -> Order {
    Order {
        waiting: waiting != 0,
        psn: Psn(psn),
    }
}

// Bench k waits where bit k of the set is one.
fn state(set: u32, turn: u8) -> Queue {
    Queue {
        orders: [
            order(set & 1, 0x0410_0000),
            order(set & 2, 0x0410_0020),
            order(set & 4, 0x0410_0040),
            order(set & 8, 0x0410_0060),
        ],
        turn,
    }
}

fn flag(b: bool) -> u64 {
    if b {
        return 1;
    }
    0
}

fn print_order(order: Order) {
    let psn = order.psn;
    lines::number(b" ", flag(order.waiting));
    lines::number(b" ", psn.0 as u64);
}

fn print_queue(queue: Queue) {
    let orders = queue.orders;
    lines::number(b" turn ", queue.turn as u64);
    print_order(orders[0]);
    print_order(orders[1]);
    print_order(orders[2]);
    print_order(orders[3]);
    lines::end_line();
}

fn print(handled: Handled) {
    let answer = handled.answer;
    let psn = handled.psn;
    let queue = handled.queue;
    lines::number(b"", answer.number() as u64);
    lines::number(b" ", answer.place() as u64);
    lines::number(b" ", handled.bench as u64);
    lines::number(b" ", psn.0 as u64);
    print_queue(queue);
}

// A serve, a record of another kind, submits of bench 0 and of bench 4.
fn records(set: u32, turn: u8) {
    let queue = state(set, turn);
    lines::number(b"turn ", turn as u64);
    lines::number_line(b" set ", set as u64);
    print(order_queue::handle(queue, b"\x02"));
    print(order_queue::handle(queue, b"\x03"));
    print(order_queue::handle(queue, b"\x01\x00\x00\x10\x00\x20"));
    print(order_queue::handle(queue, b"\x01\x04\x00\x10\x00\x20"));
}

fn sets(turn: u8) {
    for set in 0..16u32 {
        records(set, turn);
    }
}

fn main() {
    sets(0);
    sets(1);
    sets(2);
    sets(3);
    sets(4);
    sets(5);
    sets(6);
    sets(255);
}
