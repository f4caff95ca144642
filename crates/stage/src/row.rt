// The rows of a script: at 0 stands the letter of what a row asks, at 2 the seat, at 3 the position (a blank is the seated guest's), at 4 the amount, from 21 on the words.
ghost use Rattle.std.specs.Prelude.{◌≡◌, ◌<◌, ◌≤◌, ◌↔◌, length, take, drop, get_or, IsSome, IfSome, slice_range};
ghost use Rattle.script.specs.Number.{digit_of, number_of};
ghost use Rattle.options.specs.Ranges.{no_options};
ghost use Rattle.stage.specs.Rows.{lent_order, house_in};

use crate::house::house_in;
use call::At;
use options::Options;
use script::named::order_named;
use script::orders::Order;
use script::{digit, number};
use state::empty::no_options;

// The whole line; the letters in front, which every row has; the words behind them.
#[derive(Clone, Copy)]
pub struct Row<'a> {
    pub letters: &'a [u8],
    pub front: &'a [u8; 21],
    pub words: &'a [u8],
}

impl<'a> Row<'a> {
    // A line that is too short is no row.
    pub fn read(letters: &'a [u8]) -> Option<Self>
        ensures found { IsSome result ↔ (21 ≤ length letters.now) }
        ensures parts { IfSome result (λ row. (row.letters.now ≡ letters.now) × (row.front.now ≡ take 21 letters.now) × (row.words.now ≡ drop 21 letters.now)) }
    {
        let (front, words) = letters.split_first_chunk::<21>()?;
        Some(Row {
            letters,
            front,
            words,
        })
    }

    pub fn letter(&self) -> u8
        ensures { result ≡ get_or self.now.front.now 0 0 }
    {
        self.front[0]
    }

    pub fn at(&self) -> At
        ensures seat { result.seat ≡ digit_of (get_or self.now.front.now 2 0) }
        ensures position { result.position ≡ digit_of (get_or self.now.front.now 3 0) }
    {
        At {
            seat: digit(self.front[2]),
            position: digit(self.front[3]),
        }
    }

    pub fn amount(&self) -> u64
        ensures { result ≡ number_of (slice_range self.now.front.now 4 20) }
    {
        let front = self.front;
        number(&front[4..20])
    }

    // In the row of an order the decks stand at 4, and the words are the cards that come first. At 2 stands how the order is wrong, as a builder may lend it: one card short (-),
    // with a byte that is no card in its last place (x), or with the first card there (2); a point where it is not.
    #[tactic(auto, unfolding(crate::specs::Rows::wrong_by))]
    pub fn order(&self) -> Order
        ensures { result ≡ lent_order self.now.front.now self.now.words.now }
    {
        let mut order = order_named(self.words, digit(self.front[4]));
        let Some(last) = order.as_slice().len().checked_sub(1) else {
            return order;
        };
        match self.front[2] {
            b'-' => order.count = last,
            b'x' => order.cards[last] = 52,
            b'2' => order.cards[last] = order.cards[0],
            _ => {}
        }
        order
    }

    // In the row of an opening the options stand in front of the words; a row too short for them has none.
    pub fn house(&self) -> Options
        ensures short { length self.now.letters.now < 36 → result ≡ no_options }
        ensures long { 36 ≤ length self.now.letters.now → result ≡ house_in (take 36 self.now.letters.now) }
    {
        match self.letters.first_chunk::<36>() {
            Some(letters) => house_in(letters),
            None => no_options(),
        }
    }

    // What stands behind the options of an opening.
    pub fn opening_words(&self) -> Option<&'a [u8]>
        ensures found { IsSome result ↔ (36 ≤ length self.now.letters.now) }
        ensures words { IfSome result (λ words. words.now ≡ drop 36 self.now.letters.now) }
    {
        let (_, words) = self.letters.split_first_chunk::<36>()?;
        Some(words)
    }
}
