// The rules by their letters, bytes and no enum: a table of examples is a text file. Payment is asked with a stake of 20, an insurance of 10 and a side stake of 10.
use crate::answered::Answered;
use crate::example::Example;
use cards::score::hand_score;
use options::Options;
use payment::bank::{must_draw, score_of};
use payment::cover::cover;
use payment::hand_pay::hand_pay;
use payment::insurance::insurance_pay;
use payment::pay::Pay;
use payment::prize::prize;
use payment::side_pay::side_pay;
use rules::drew::seat_drew;
use rules::seat_hand::{DEALT, HandInSeat, SeatHand};
use rules::turn::{seat_waits, waiting_place};
use script::digit;

// Whether the rules permit a decision; U asks for a surrender that is not too late, any other letter for one that is.
fn permits(rule: u8, o: Options, h: HandInSeat) -> bool {
    match rule {
        b'S' => h.permits_stand(o),
        b'D' => h.permits_draw(o),
        b'X' => h.permits_double(o),
        b'P' => h.permits_split(o),
        b'E' => h.permits_even(o),
        b'F' => h.permits_five(o),
        b'U' => h.permits_surrender(o, false),
        _ => h.permits_surrender(o, true),
    }
}

// A side stake of that kind; the third card is the next one drawn where the hand is from a split.
// The kind is the byte of a call.
fn side(kind: u8, h: SeatHand) -> Pay {
    let [first, second, third, ..] = h.hand.cards;
    side_pay(kind, 10, [first, second, third], h.origin != DEALT)
}

// What the rule of the example answers; nothing where its letter is that of no rule.
pub(crate) fn answer(example: Example<'_>) -> Option<Answered> {
    let rule = example.rule();
    let o = example.house();
    let up = example.up();
    let h = example.hand();
    let in_seat = HandInSeat {
        up,
        many: usize::from(example.many()),
        hand: h,
    };
    let bank = example.bank();
    let answered = match rule {
        b'A'..=b'Z' => Answered::Whether(permits(rule, o, in_seat)),
        b's' => Answered::Score(hand_score(h.hand)),
        b'w' => Answered::Whether(in_seat.waits(o)),
        b'n' => Answered::Number(waiting_place(o, up, example.seat()) as u64),
        b'a' => Answered::Whether(seat_waits(o, up, example.seat())),
        b'r' => Answered::Whether(seat_drew(example.seat())),
        b'b' => Answered::Whether(must_draw(bank)),
        b'y' => Answered::Paid(hand_pay(o, score_of(bank), 20, h)),
        b'i' => Answered::Paid(insurance_pay(score_of(bank), 10)),
        b'z' => Answered::Number(prize(o, 20, h)),
        b'c' => Answered::Number(cover(20)),
        b'1'..=b'4' => Answered::Paid(side(digit(rule), h)),
        _ => return None,
    };
    Some(answered)
}
