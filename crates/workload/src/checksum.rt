// A number that changes with every answer, every sum of money and every card.
use answer::reply::Answer;
use cards::hand::{Hand, held};
use table::Table;

const PRIME: u64 = 4294967291;

fn mix(sum: u64, n: u64) -> u64 {
    (sum % PRIME * 31 + n % PRIME) % PRIME
}

fn of_hand(h: Hand, sum: u64) -> u64 {
    let cards = &h.cards[..held(h)];
    cards.iter().fold(sum, |all, card| mix(all, *card as u64))
}

fn of_purses(t: &Table, sum: u64) -> u64 {
    t.seats
        .iter()
        .fold(sum, |all, seat| mix(all, seat.money.purse))
}

// Number, tray and cards drawn of every call; of an accepted close the bank's cards and the purses too.
pub fn of_step(sum: u64, answer: Answer, t: Table) -> u64 {
    let called = mix(sum, answer.number as u64);
    let all = mix(mix(called, t.tray), t.shoe.drawn as u64);
    if answer.bank.count == 0 {
        return all;
    }
    of_purses(&t, of_hand(answer.bank, all))
}

// Tray, cards drawn and purses of one table.
pub fn of_table(t: Table) -> u64 {
    of_purses(&t, mix(mix(0, t.tray), t.shoe.drawn as u64))
}
