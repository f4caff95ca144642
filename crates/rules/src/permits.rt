// Whether the rules permit stand, draw, double and split to a hand, purse and shoe left aside (document 01, "The seventeen calls").
ghost use Rattle.std.specs.Prelude.{◌≡◌};
ghost use Rattle.rules.specs.SeatHand.{played_of};
ghost use Rattle.rules.specs.Permits.{permits_stand, takes_cards, permits_draw, permits_double, permits_split};

use crate::seat_hand::{HandInSeat, SPLIT_ACES, has_two_cards};
use cards::pair::is_pair;
use cards::total::total;
use options::Options;

impl HandInSeat {
    #[tactic(auto, unfolding(crate::specs::Permits::permits_stand))]
    pub fn permits_stand(self, o: Options) -> bool
        ensures { result ≡ permits_stand o self.up self.many (played_of self.hand) }
    {
        self.waits(o)
    }

    // A waiting hand that is not from split aces, of a total below 21.
    #[tactic(auto, unfolding(crate::specs::Permits::takes_cards))]
    fn takes_cards(self, o: Options) -> bool
        ensures { result ≡ takes_cards o self.up self.many (played_of self.hand) }
    {
        let h = self.hand;
        self.waits(o) && (h.origin != SPLIT_ACES && total(h.hand) < 21)
    }

    #[tactic(auto, unfolding(crate::specs::Permits::permits_draw))]
    pub fn permits_draw(self, o: Options) -> bool
        ensures { result ≡ permits_draw o self.up self.many (played_of self.hand) }
    {
        self.takes_cards(o)
    }

    #[tactic(auto, unfolding(crate::specs::Permits::permits_double))]
    pub fn permits_double(self, o: Options) -> bool
        ensures { result ≡ permits_double o self.up self.many (played_of self.hand) }
    {
        let h = self.hand;
        self.takes_cards(o) && (has_two_cards(h) && (o.double == 1 || total(h.hand) == 11))
    }

    #[tactic(auto, unfolding(crate::specs::Permits::permits_split))]
    pub fn permits_split(self, o: Options) -> bool
        ensures { result ≡ permits_split o self.up self.many (played_of self.hand) }
    {
        self.waits(o) && (is_pair(self.hand.hand) && self.many < (o.hands as usize))
    }
}
