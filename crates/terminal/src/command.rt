// What a line says: a call, or something else that its first word names.
use crate::amounts::are_cards;
use crate::asked::{Fault, Needed, amount_of, end_of, guest_of, word_of};
use crate::houses::House;
use crate::words::Words;
use call::{At, Call};

#[derive(Clone, Copy)]
pub(crate) enum Command<'a> {
    Call(Call),
    Help,
    Houses,
    Options,
    Numbers,
    House(House),
    Open,
    // By a seed of one's choice, or by the next one.
    Shuffle(Option<u64>),
    // The letters of cards.
    Order(&'a [u8]),
    // With the display of a guest, or of the one who called last.
    Show(Option<At>),
    Save(&'a [u8]),
    Replay(&'a [u8]),
    Quit,
}

// A side stake of that kind.
// The kind is the byte of the call.
fn side<'a>(kind: u8, words: &mut Words<'a>) -> Result<Call, Fault<'a>> {
    let at = guest_of(words)?;
    Ok(Call::Side(at, kind, amount_of(words)?))
}

// The call of that name with what it needs; none where the word names no call.
fn call_named<'a>(word: &[u8], words: &mut Words<'a>) -> Result<Option<Call>, Fault<'a>> {
    let call = match word {
        b"fill" => Call::Fill(amount_of(words)?),
        b"credit" => Call::Credit(amount_of(words)?),
        b"buy" => Call::Buy(guest_of(words)?, amount_of(words)?),
        b"cash" => Call::Cash(guest_of(words)?, amount_of(words)?),
        b"stake" => Call::Stake(guest_of(words)?, amount_of(words)?),
        b"deal" => Call::Deal,
        b"insure" => Call::Insure(guest_of(words)?, amount_of(words)?),
        b"stand" => Call::Stand(guest_of(words)?),
        b"draw" => Call::Draw(guest_of(words)?),
        b"double" => Call::Double(guest_of(words)?),
        b"split" => Call::Split(guest_of(words)?),
        b"surrender" => Call::Surrender(guest_of(words)?),
        b"even" => Call::Even(guest_of(words)?),
        b"five" => Call::Five(guest_of(words)?),
        b"close" => Call::Close,
        b"void" => Call::Void,
        b"load" => Call::Load,
        b"pair" => side(1, words)?,
        b"sevens" => side(2, words)?,
        b"more" => side(3, words)?,
        b"less" => side(4, words)?,
        _ => return Ok(None),
    };
    Ok(Some(call))
}

fn house<'a>(words: &mut Words<'a>) -> Result<Command<'a>, Fault<'a>> {
    let word = word_of(words, Needed::House)?;
    match House::named(word) {
        Some(house) => Ok(Command::House(house)),
        None => Err(Fault::Wrong(word, Needed::House)),
    }
}

fn shuffle<'a>(words: &mut Words<'a>) -> Result<Command<'a>, Fault<'a>> {
    if words.is_over() {
        return Ok(Command::Shuffle(None));
    }
    Ok(Command::Shuffle(Some(amount_of(words)?)))
}

fn order<'a>(words: &mut Words<'a>) -> Result<Command<'a>, Fault<'a>> {
    let letters = word_of(words, Needed::Cards)?;
    if are_cards(letters) {
        Ok(Command::Order(letters))
    } else {
        Err(Fault::Wrong(letters, Needed::Cards))
    }
}

fn show<'a>(words: &mut Words<'a>) -> Result<Command<'a>, Fault<'a>> {
    if words.is_over() {
        return Ok(Command::Show(None));
    }
    Ok(Command::Show(Some(guest_of(words)?)))
}

// What the first word names with what it needs.
fn named<'a>(word: &'a [u8], words: &mut Words<'a>) -> Result<Command<'a>, Fault<'a>> {
    if let Some(call) = call_named(word, words)? {
        return Ok(Command::Call(call));
    }
    match word {
        b"help" => Ok(Command::Help),
        b"houses" => Ok(Command::Houses),
        b"options" => Ok(Command::Options),
        b"numbers" => Ok(Command::Numbers),
        b"house" => house(words),
        b"open" => Ok(Command::Open),
        b"shuffle" => shuffle(words),
        b"order" => order(words),
        b"show" => show(words),
        b"save" => Ok(Command::Save(word_of(words, Needed::FileName)?)),
        b"replay" => Ok(Command::Replay(word_of(words, Needed::SessionFile)?)),
        b"quit" => Ok(Command::Quit),
        _ => Err(Fault::Wrong(word, Needed::KnownWord)),
    }
}

// A line of blanks, and one that begins with #, says nothing.
pub(crate) fn command_of(line: &[u8]) -> Result<Option<Command<'_>>, Fault<'_>> {
    let mut words = Words::of(line);
    let Some(word) = words.next() else {
        return Ok(None);
    };
    if word.starts_with(b"#") {
        return Ok(None);
    }
    let command = named(word, &mut words)?;
    end_of(&mut words)?;
    Ok(Some(command))
}
