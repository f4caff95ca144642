// The faces left of a table: it opens, each seat asked for stakes, and a round is dealt.
use call::{At, Call};
use cashier::opening::opened;
use options::Options;
use script::orders::Order;
use stage::house::marked;
use stage::pay_lines::PayLines;
use table::Table;

// A shoe of several decks has a cut, of 30 cards at least.
// The device is the byte of the options, here and below.
fn cut(device: u8, decks: u8) -> u16 {
    if device == 1 && 2 <= decks { 30 } else { 0 }
}

// The marked session's house with nine seats and no prize, of that device and so many decks.
fn house(device: u8, decks: u8) -> Options {
    Options {
        seats: 9,
        decks,
        prize: 0,
        device,
        cut: cut(device, decks),
        ..marked()
    }
}

// The table with the round that is dealt from this order, in which every seat below the number stakes 2; the tray covers them.
pub(crate) fn dealt(device: u8, decks: u8, seats: u8, order: Order) -> Table {
    let mut lines = PayLines::new();
    let opened = opened(house(device, decks), order.as_slice());
    let mut table = lines.step(opened.table, Call::Fill(1000), b"").table;
    // The seats' numbers are what is called.
    for seat in 0..seats {
        let at = At { seat, position: 0 };
        table = lines.step(table, Call::Buy(at, 2), b"").table;
        table = lines.step(table, Call::Stake(at, 2), b"").table;
    }
    lines.step(table, Call::Deal, b"").table
}
