// What is kept from row to row: the hosted table, and the stage for orders, openings and pay lines. Rows may also put a card or a tally there as no call does.
use answer::reply::Answer;
use call::At;
use call::guest::Guest;
use call::refusal::Refusal;
use host::outcome::HostReply;
use host::{host_step, without_cards};
use host_spec::{GuestCard, HostCall, Hosted, Tally};
use stage::Stage;
use stage::row::Row;

#[derive(Clone, Copy)]
pub(crate) struct Room {
    pub(crate) stage: Stage,
    pub(crate) hosted: Hosted,
}

impl Room {
    pub(crate) fn new() -> Self {
        let stage = Stage::new();
        Room {
            stage,
            hosted: without_cards(stage.table),
        }
    }

    // An opening; the table then has no card.
    pub(crate) fn open(&mut self, row: Row<'_>) -> Result<(), Refusal> {
        let opened = self.stage.open(row.house());
        self.hosted = without_cards(self.stage.table);
        opened
    }

    // A call, with the order that was lent last.
    pub(crate) fn play(&mut self, call: HostCall) -> Answer {
        let stage = &mut self.stage;
        let HostReply { answer, hosted } = host_step(
            self.hosted,
            call,
            stage.order.as_slice(),
            &mut stage.lines.names,
            &mut stage.lines.nets,
        );
        self.hosted = hosted;
        answer
    }

    // A card put at a position, with a tally of so many rounds, 20 laid and 20 back in each. Nothing is asked: so a card may sit twice, or a tally stand past its end.
    pub(crate) fn put(&mut self, at: At, card: u64, rounds: u32) {
        if 9 <= at.seat || 3 <= at.position {
            return;
        }
        let money = 20 * u64::from(rounds);
        let tally = Tally {
            rounds,
            wagered: money,
            returned: money,
        };
        self.hosted.cards[Guest::new(at).place()] = GuestCard {
            here: 1,
            card,
            tally,
        };
    }
}
