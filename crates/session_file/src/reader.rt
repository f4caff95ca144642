// What a checked file hands out (request 2.9): its options, its first order, and one call after another. Every file and every place is taken; a refused file hands out no call.
ghost use Rattle.std.specs.Prelude.{◌≡◌, cond, ◌+◌, ◌-◌, ◌≤◌, leb, length, take, drop, get_or, true, Some};
ghost use Rattle.std.specs.Iterator.{at_most};
ghost use Rattle.options.specs.Ranges.{no_options};
ghost use Rattle.file_spec.specs.Handed.{file_options, file_order};
ghost use Rattle.file_spec.specs.Reader.{call_place, first_place, order_at, place_behind, handed_at};
ghost use Rattle.session_file.specs.Reader.{handed_of, HandsOut};

use crate::check::check_file;
use call::Call;
use file_block::call_block::code_call;
use file_block::table_block::options_in;
use options::Options;
use state::empty::no_options;

// A call, with the place of the order that is lent beside it and its number of cards, and the place behind the call. The places are numbers, since C reads them too.
#[derive(Clone, Copy)]
pub struct Handed {
    pub call: Call,
    pub order: usize,
    pub cards: usize,
    pub behind: usize,
}

// So many bytes from a place on; fewer where the file ends before.
pub fn part(file: &[u8], at: usize, many: usize) -> &[u8]
    ensures { result.now ≡ take many (drop at file.now) }
{
    let rest = file.get(at..).unwrap_or(&[]);
    rest.get(..many).unwrap_or(rest)
}

// The byte at a place; 0 behind the file's end.
pub fn byte_at(file: &[u8], at: usize) -> u8
    ensures { result ≡ get_or file.now at 0 }
{
    file.get(at).copied().unwrap_or(0)
}

// The options that the session opens with; none where the file has no block.
pub fn file_options(file: &[u8]) -> Options
    ensures { result ≡ cond (leb 512 (length file.now)) (file_options file.now) no_options }
{
    match file.first_chunk() {
        Some(block) => options_in(block),
        None => no_options(),
    }
}

// The order that it opens with.
pub fn file_order(file: &[u8]) -> &[u8]
    ensures { result.now ≡ file_order file.now }
{
    let start = part(file, 0, 512);
    part(start, 32, 52 * usize::from(byte_at(start, 1)))
}

// The place of the first call in the block that begins there, or the end.
pub fn call_place(file: &[u8], start: usize) -> usize
    ensures { result ≡ call_place file.now start }
{
    if start < file.len() {
        start + 1
    } else {
        file.len()
    }
}

// Where a reader begins.
pub fn first_place(file: &[u8]) -> usize
    ensures { result ≡ first_place file.now }
{
    match check_file(file) {
        Ok(()) => call_place(file, 512),
        Err(_) => file.len(),
    }
}

// The place behind the call at a place.
fn place_behind(file: &[u8], at: usize) -> usize
    requires { at + 10 ≤ length file.now }
    ensures { result ≡ place_behind file.now at }
{
    let start = at - at % 512;
    if at % 512 + 10 <= 10 * usize::from(file[start]) {
        return at + 10;
    }
    if file[at] == 17 {
        return call_place(file, start + 1024);
    }
    call_place(file, start + 512)
}

// What is handed out at a place where ten bytes lie: beside a load the order of the next block.
fn hand_out(file: &[u8], at: usize, call: Call) -> Handed
    requires { at + 10 ≤ length file.now }
    ensures { handed_of file.now at (Some result) ≡ record { found = true; call = call; order = order_at file.now at; behind = place_behind file.now at } }
{
    let behind = place_behind(file, at);
    let start = at - at % 512;
    let (order, cards) = if file[at] == 17 {
        (start + 544, 52 * usize::from(byte_at(file, start + 513)))
    } else {
        (0, 0)
    };
    Handed {
        call,
        order,
        cards,
        behind,
    }
}

// What a reader hands out at a place.
pub fn call_at(file: &[u8], at: usize) -> Option<Handed>
    ensures { handed_of file.now at result ≡ handed_at file.now at }
{
    let code = file.get(at..)?.first_chunk()?;
    Some(hand_out(file, at, code_call(code)))
}

// The reader: the lent file and the place of the next call.
#[derive(Clone, Copy, Drop)]
pub struct Reader<'a> {
    pub file: &'a [u8],
    pub at: usize,
}

impl<'a> Reader<'a> {
    // Once the whole file has been checked.
    pub fn new(file: &'a [u8]) -> Reader<'a>
        ensures { (result.file ≡ file.entry) × (result.at ≡ first_place file.now) }
    {
        Reader {
            file,
            at: first_place(file),
        }
    }

    // Of a file that has been checked already.
    pub fn of_checked(file: &'a [u8]) -> Reader<'a>
        ensures { (result.file ≡ file.entry) × (result.at ≡ call_place file.now 512) }
    {
        Reader {
            file,
            at: call_place(file, 512),
        }
    }
}

impl Iterator for Reader<'_> {
    type Item = Handed;

    ghost next_gives = { HandsOut };

    ghost remaining = { λ r. at_most (length r.file.now - r.at) };

    fn next(&mut self) -> Option<Handed> {
        let handed = call_at(self.file, self.at)?;
        self.at = handed.behind;
        Some(handed)
    }
}
