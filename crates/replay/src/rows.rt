// The lines of a session that is played, one for each call.
use call::pay_line::LINES;
use replaying::play_call;
use session_file::reader::Reader;
use stage::calls::call_name;
use stage::shown::CallLine;
use std::io;
use std::io::Write;
use table::whole::Whole;

// All calls of a file that is not refused, from its first table on.
pub(crate) fn each<W: Write>(out: &mut W, file: &[u8], first: Whole) -> io::Result<()> {
    let mut names = [0; LINES];
    let mut nets = [0; LINES];
    let mut t = first;
    for handed in Reader::of_checked(file) {
        let answer = play_call(&mut t, file, handed, &mut names, &mut nets);
        let line = CallLine {
            name: call_name(handed.call),
            number: answer.number,
            table: *t.table(),
        };
        writeln!(out, "{line}")?;
    }
    Ok(())
}
