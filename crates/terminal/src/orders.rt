// The order that the next opening or load is lent: shuffled by a seed, or begun with cards of one's choice.
use script::named::order_named;
use script::orders::{Order, begun_order, lent};

// How orders are made: from cards that come first where they were given, else by the seed.
#[derive(Clone, Copy)]
pub(crate) struct Source {
    first: Option<Order>,
    seed: u64,
}

pub(crate) fn by_seed(seed: u64) -> Source {
    Source { first: None, seed }
}

// The next number that decides, 1 to 2147483646 (Lehmer's rule with 48271).
fn stirred(n: u64) -> u64 {
    n % 2147483647 * 48271 % 2147483647
}

// Each card is exchanged with itself or one before it, so that every face stays as often as it was.
fn shuffled(order: Order, seed: u64) -> Order {
    let mut next = order;
    let cards = &mut next.cards[..lent(order.count)];
    let mut n = stirred(1 + seed % 2147483646);
    // Two places are exchanged, so both are numbers.
    for last in 1..cards.len() {
        cards.swap(last, (n % 1000003) as usize % (last + 1));
        n = stirred(n);
    }
    next
}

impl Source {
    // Cards that come first, an order of no deck. The seed stays, for a later shuffle that goes on from it.
    pub(crate) fn by_cards(self, letters: &[u8]) -> Self {
        Source {
            first: Some(order_named(letters, 0)),
            seed: self.seed,
        }
    }

    pub(crate) fn next_seed(self) -> u64 {
        self.seed % 1_000_000_000_000_000 + 1
    }

    // The order for so many decks.
    pub(crate) fn order_for(self, decks: u8) -> Order {
        match self.first {
            Some(first) => begun_order(first.as_slice(), decks),
            None => shuffled(begun_order(b"", decks), self.seed),
        }
    }
}
