// The session file: the number of any bytes, what a checked file hands out, and the writer.
ghost use Rattle.std.specs.Prelude.{◌≡◌, cond, leb, length};
ghost use Rattle.options.specs.Ranges.{no_options};
ghost use Rattle.file_spec.specs.Number.{file_number};
ghost use Rattle.file_spec.specs.Handed.{file_options};
ghost use Rattle.file_spec.specs.Reader.{first_place, handed_at};
ghost use Rattle.file_spec.specs.Writer.{begun, ended};
ghost use Rattle.file_writer.specs.Writer.{calls_of};
ghost use Rattle.replaying.specs.Playing.{Opened};
ghost use Rattle.discgauze.specs.File.{file_call_of, file_call_by, added_by, last_of, Gives};

use answer::outcome::Outcome;
use discgauze::file::{FileCall, Last, Written};
use file_writer::writer::Writer;
use options::Options;

// The number of a file: 0, 24, 25 or 26. Numbers and bytes here and below: C reads them and hands them over.
#[unsafe(no_mangle)]
pub extern "C" fn discgauze_file_number(file: &[u8]) -> u8
    ensures { result ≡ file_number file.now }
{
    discgauze::file::discgauze_file_number(file)
}

// The options that its session opens with; none where the file has no block.
#[unsafe(no_mangle)]
pub extern "C" fn discgauze_file_options(file: &[u8]) -> Options
    ensures { result ≡ cond (leb 512 (length file.now)) (file_options file.now) no_options }
{
    discgauze::file::discgauze_file_options(file)
}

// The number of the whole file, and the table that its session opens with.
#[unsafe(no_mangle)]
pub extern "C" fn discgauze_file_opened(file: &[u8]) -> Outcome
    ensures { Opened file.now result }
{
    discgauze::file::discgauze_file_opened(file)
}

// The place of the first call; the end for a refused file.
#[unsafe(no_mangle)]
pub extern "C" fn discgauze_file_first(file: &[u8]) -> usize
    ensures { result ≡ first_place file.now }
{
    discgauze::file::discgauze_file_first(file)
}

// The call at a place.
#[unsafe(no_mangle)]
pub extern "C" fn discgauze_file_call(file: &[u8], at: usize) -> FileCall
    ensures { file_call_of file.now result ≡ file_call_by (handed_at file.now at) }
{
    discgauze::file::discgauze_file_call(file, at)
}

// The beginning of a session's file.
#[unsafe(no_mangle)]
pub extern "C" fn discgauze_file_begin(options: Options, order: &[u8]) -> Written
    ensures { Gives options (begun options order.now) result }
{
    discgauze::file::discgauze_file_begin(options, order)
}

// One more accepted call, and the order that a load read.
#[unsafe(no_mangle)]
pub extern "C" fn discgauze_file_add(
    writer: Writer,
    kind: u8,
    seat: u8,
    position: u8,
    amount: u64,
    order: &[u8],
) -> Written
    ensures { Gives writer.options (added_by writer kind seat position amount order.now) result }
{
    discgauze::file::discgauze_file_add(writer, kind, seat, position, amount, order)
}

// The end of a session's file.
#[unsafe(no_mangle)]
pub extern "C" fn discgauze_file_end(writer: Writer) -> Last
    ensures { last_of result ≡ ended writer.many (calls_of writer) }
{
    discgauze::file::discgauze_file_end(writer)
}
