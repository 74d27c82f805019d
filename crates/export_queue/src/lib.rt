// The queue of four benches for programs in other languages: numbers, and structs and slices of them.
#![tactic(auto)]

ghost use Rattle.std.specs.Prelude.{◌≡◌, cond};
ghost use Rattle.order_queue.specs.Queue.{handled};
ghost use Rattle.export_queue.specs.Exported.{order_given, queue_given, order_seen, queue_seen, handled_seen};

use address::Psn;
use order_queue::{Order, Queue};

// The order of a bench: 0 for none; any other number where one is waiting.
#[repr(C)]
#[derive(Clone, Copy)]
pub struct OrderNumbers {
    pub waiting: u8,
    pub psn: u32,
}

#[repr(C)]
#[derive(Clone, Copy)]
pub struct QueueNumbers {
    pub orders: [OrderNumbers; order_queue::BENCHES],
    pub turn: u8,
}

// The queue behind a record, the documents' number and place, and for a serve the bench and the PSN of its order.
#[repr(C)]
#[derive(Clone, Copy)]
pub struct HandledNumbers {
    pub queue: QueueNumbers,
    pub number: u32,
    pub place: usize,
    pub bench: u8,
    pub psn: u32,
}

// ---- as it is handed in

fn order_given(order: OrderNumbers) -> Order
    ensures { result ≡ order_given order }
{
    let psn = Psn(order.psn);
    Order {
        waiting: order.waiting != 0,
        psn,
    }
}

fn queue_given(queue: QueueNumbers) -> Queue
    ensures { result ≡ queue_given queue }
{
    let orders = queue.orders;
    Queue {
        orders: [
            order_given(orders[0]),
            order_given(orders[1]),
            order_given(orders[2]),
            order_given(orders[3]),
        ],
        turn: queue.turn,
    }
}

// ---- as it is given back

fn flag(waiting: bool) -> u8
    ensures { result ≡ cond waiting 1 0 }
{
    if waiting {
        return 1;
    }
    0
}

fn order_seen(order: Order) -> OrderNumbers
    ensures { result ≡ order_seen order }
{
    let psn = order.psn;
    OrderNumbers {
        waiting: flag(order.waiting),
        psn: psn.0,
    }
}

fn queue_seen(queue: Queue) -> QueueNumbers
    ensures { result ≡ queue_seen queue }
{
    let orders = queue.orders;
    QueueNumbers {
        orders: [
            order_seen(orders[0]),
            order_seen(orders[1]),
            order_seen(orders[2]),
            order_seen(orders[3]),
        ],
        turn: queue.turn,
    }
}

// Handles a record.
pub fn handle_record(queue: QueueNumbers, bytes: &[u8]) -> HandledNumbers
    ensures { result ≡ handled_seen (handled (queue_given queue) bytes.now) }
{
    let handled = order_queue::handle(queue_given(queue), bytes);
    let left = handled.queue;
    let answer = handled.answer;
    let psn = handled.psn;
    HandledNumbers {
        queue: queue_seen(left),
        number: answer.number(),
        place: answer.place(),
        bench: handled.bench,
        psn: psn.0,
    }
}
