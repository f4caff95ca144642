// The pay lines of close (document 01, "Payment"): one for each hand, insurance and side stake of each guest who has staked, by seat and position; for a guest the insurance
// first, then the side stakes by kind, then the hands by place. They are written into the two arrays that the caller lends, each pass behind those before it.
ghost use Rattle.std.specs.Prelude.{cond, map, ◌≤◌, [], ◌∷◌, length, take};
ghost use Rattle.rules.specs.SeatHand.{hands_of};
ghost use Rattle.payment.specs.Pays.{due, insurance_pays, side_due, side_pays, hand_pays};
ghost use Rattle.close_spec.specs.PayLines.{line_of, guest_lines, seat_lines, all_lines};
ghost use Rattle.close.specs.Aids.LinesAt.{LinesAt, LinesPut};

use crate::paying::Payment;
use call::At;
use call::pay_line::{HAND, INSURANCE, LINES, line_name};
use payment::bank::Score;
use payment::hand_pay::hand_pay;
use payment::insurance::insurance_pay;
use payment::pay::Pay;
use payment::side_pay::side_pay;
use rules::seat_hand::SeatHands;
use table::Seat;

// The two lent arrays, as C lends them, and the place behind the lines that stand there. A line for which there is no room is left out; all_lines shows that none is.
#[derive(Drop)]
pub(crate) struct PayLines<'a> {
    names: &'a mut [u32; LINES],
    nets: &'a mut [i64; LINES],
    at: usize,
}

impl PayLines<'_> {
    // One line: its name, and the net, what goes back less what lay there.
    fn put(&mut self, guest: At, place: u8, kind: u8, p: Pay)
        requires { (p.laid ≤ 1000000000000000) × (p.back ≤ 1000000000000000) }
        ensures { LinesPut self.old (line_of guest.seat guest.position (due kind place p) ∷ []) self.new }
    {
        let net = (p.back as i64) - (p.laid as i64);
        let at = self.at;
        if at < LINES {
            self.names[at] = line_name(guest.seat, guest.position, place, kind);
            self.nets[at] = net;
            self.at = at + 1;
        }
    }

    // A line for the insurance, if there is one.
    fn insurance_lines(&mut self, guest: At, bank: Score, insurance: u32)
        ensures { LinesPut self.old (map (line_of guest.seat guest.position) (insurance_pays bank insurance)) self.new }
    {
        if insurance == 0 {
            return;
        }
        let pay = insurance_pay(bank, insurance);
        self.put(guest, 0, INSURANCE, pay);
    }

    // A line for a side stake of that kind, if there is one. The kind is a byte, since C reads it in the name. `split` is a fact of the hands,
    // worked out once for the four kinds.
    fn side_line(&mut self, guest: At, kind: u8, stake: u32, first: [u8; 3], split: bool)
        requires { kind ≤ 4 }
        ensures { LinesPut self.old (map (line_of guest.seat guest.position) (side_due kind stake (take (cond split 3 2) first))) self.new }
    {
        if stake == 0 {
            return;
        }
        let pay = side_pay(kind, stake, first, split);
        self.put(guest, 0, 1 + kind, pay);
    }

    // The lines of the side stakes, by kind.
    fn side_lines(&mut self, guest: At, sides: [u32; 4], first: [u8; 3], split: bool)
        ensures { LinesPut self.old (map (line_of guest.seat guest.position) (side_pays sides (take (cond split 3 2) first))) self.new }
    {
        self.side_line(guest, 1, sides[0], first, split);
        self.side_line(guest, 2, sides[1], first, split);
        self.side_line(guest, 3, sides[2], first, split);
        self.side_line(guest, 4, sides[3], first, split);
    }
}

impl Payment {
    // A line for each hand in use.
    fn hand_lines(&self, lines: &mut PayLines, guest: At, stake: u32, hands: SeatHands)
        ensures { LinesPut lines.old (map (line_of guest.seat guest.position) (hand_pays self.now.options self.now.bank stake 0 (hands_of hands))) lines.new }
    {
        let in_use = hands.in_use();
        for (place, h) in in_use.iter().enumerate() {
            let pay = hand_pay(self.options, self.bank, stake, *h);
            lines.put(guest, place as u8, HAND, pay);
        }
    }

    // The lines of a guest, who has none without a stake.
    fn guest_lines(&self, lines: &mut PayLines, guest: At, s: Seat)
        ensures { LinesPut lines.old (guest_lines self.now.options self.now.bank guest.seat guest.position s) lines.new }
    {
        let money = s.money;
        let stake = money.stake;
        if stake == 0 {
            return;
        }
        let hands = s.hands;
        lines.insurance_lines(guest, self.bank, money.insurance);
        lines.side_lines(guest, money.sides, s.first, hands.many != 1);
        self.hand_lines(lines, guest, stake, hands);
    }

    // The lines of a seat, by position.
    fn seat_lines(&self, lines: &mut PayLines, seat: u8, s: Seat)
        ensures put { LinesPut lines.old (seat_lines self.now.options self.now.bank seat s) lines.new }
        ensures few { length (seat_lines self.now.options self.now.bank seat s) ≤ 27 }
    {
        let one = Seat {
            money: s.others[0],
            ..s
        };
        let other = Seat {
            money: s.others[1],
            ..s
        };
        self.guest_lines(lines, At { seat, position: 0 }, s);
        self.guest_lines(lines, At { seat, position: 1 }, one);
        self.guest_lines(lines, At { seat, position: 2 }, other);
    }

    // The lines of all seats, from the arrays' front: at most 27 each, so that there are places enough for every table, a damaged one too.
    pub(crate) fn all_lines(
        &self,
        names: &mut [u32; LINES],
        nets: &mut [i64; LINES],
        seats: &[Seat; 9],
    ) -> usize
        ensures { LinesAt names.old nets.old 0 (all_lines self.now.options self.now.bank 0 seats.now) names.new nets.new result }
    {
        let mut lines = PayLines { names, nets, at: 0 };
        for (i, s) in seats.iter().enumerate() {
            self.seat_lines(&mut lines, i as u8, *s);
        }
        lines.at
    }
}
