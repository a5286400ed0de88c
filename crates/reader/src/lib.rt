// The reader: it holds the file and a place in it, and hands over one command a time.
//
// Its functions are thin, over functions on a slice and a number, which callers without a reader use as well. It judges nothing: `file_check` does.
#![tactic(auto)]

ghost use Rattle.std.specs.Prelude.{◌≡◌, drop};
ghost use Rattle.commands.specs.Reading.{command_at};
ghost use Rattle.reader.specs.Places.{place_after};

use answers::Reason;
use commands::Command;

#[derive(Clone, Copy, Debug)]
pub struct Reader<'a> {
    pub file: &'a [u8],
    pub at: usize,
}

// The command at a place of a file, read from the remainder alone; cut short where nothing remains.
pub fn command_at(file: &[u8], at: usize) -> Command
    ensures { result ≡ command_at (drop at file.now) }
{
    if at < file.len() {
        return commands::read(&file[at..]);
    }
    Command::Refused(Reason::CutShort)
}

// The place behind the command at a place.
pub fn place_after(file: &[u8], at: usize) -> usize
    ensures { result ≡ place_after file.now at }
{
    if at < file.len() {
        let size = commands::size_of(file[at]);
        if size <= file.len() - at {
            return at + size;
        }
    }
    at
}

// A reader at the start of a file.
pub fn new<'a>(file: &'a [u8]) -> Reader<'a>
    ensures { (result.file ≡ file.entry) × (result.at ≡ 0) }
{
    Reader { file, at: 0 }
}

// The command that the reader stands at.
pub fn next<'a>(r: Reader<'a>) -> Command
    ensures { result ≡ command_at (drop r.entry.at r.entry.file.now) }
{
    command_at(r.file, r.at)
}

// The reader behind that command.
pub fn after<'a>(r: Reader<'a>) -> Reader<'a>
    ensures { (result.file ≡ r.entry.file) × (result.at ≡ place_after r.entry.file.now r.entry.at) }
{
    let at = place_after(r.file, r.at);
    Reader { file: r.file, at }
}
