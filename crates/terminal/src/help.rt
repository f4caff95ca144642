// What a line may say.
pub(crate) const HELP: &str = "\
The house and the cashier:
  fill 10000      credit 500      chips into the tray and out of it
  buy 2 100       cash 2 50       chips into the purse of a guest and out of it
  deal    close    void    load   a round dealt, paid, taken back; a new order of cards
The guest of a seat (2 the seated guest of seat 2, 2.1 and 2.2 the others who bet there):
  stake 2 20                      before the deal
  pair 2 5    sevens 2 5    more 2 5    less 2 5    side stakes, behind the stake
  insure 2 10                     against an ace
  stand 2    draw 2    double 2    split 2    surrender 2    even 2    five 2
The table:
  houses          the houses with their options
  house box       a new session in that house
  options         the options of this table
  shuffle 42      the next open or load takes an order shuffled by that seed; shuffle alone takes the next seed
  order 7a9d7b    the next open or load takes these cards first, then the others, rising: A 2 to 9 T J Q K in the suits a to d
  open            a new session in the same house
  show    show 2.1    the table again, with the display of that guest
  numbers         what each number says
  save NAME       the session as a new file
  replay NAME     checks a session file and plays it; the session goes on from there
  help    quit    # begins a line that says nothing
";
