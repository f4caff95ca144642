// Whether the rules permit even, five and surrender to a hand: by these it leaves with a pay that no card of the bank changes
// (document 01, "The seventeen calls").
ghost use Rattle.std.specs.Prelude.{◌≡◌};
ghost use Rattle.rules.specs.SeatHand.{played_of};
ghost use Rattle.rules.specs.Leaving.{permits_even, permits_five, permits_surrender};

use crate::open_calls::{even_open, five_open};
use crate::seat_hand::HandInSeat;
use cards::card::is_ace;
use options::Options;

impl HandInSeat {
    // Even and five each by the rule of its own article: one function of both would take a code that says which.
    #[tactic(auto, unfolding(crate::specs::Leaving::permits_even))]
    pub fn permits_even(self, o: Options) -> bool
        ensures { result ≡ permits_even o self.up self.many (played_of self.hand) }
    {
        self.waits(o) && even_open(self.up, self.hand)
    }

    #[tactic(auto, unfolding(crate::specs::Leaving::permits_five))]
    pub fn permits_five(self, o: Options) -> bool
        ensures { result ≡ permits_five o self.up self.many (played_of self.hand) }
    {
        self.waits(o) && five_open(o, self.up, self.hand)
    }

    // `late`: someone has drawn, doubled or split in this round.
    #[tactic(auto, unfolding(crate::specs::Leaving::permits_surrender))]
    pub fn permits_surrender(self, o: Options, late: bool) -> bool
        ensures { result ≡ permits_surrender o self.up late self.many (played_of self.hand) }
    {
        self.waits(o) && (!late && !is_ace(self.up))
    }
}
