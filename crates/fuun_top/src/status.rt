ghost use Rattle.std.specs.Prelude.{◌≡◌, ◌++◌, codes, decimal};
ghost use Rattle.fuun_io.specs.Counts.{HasCause};
ghost use Rattle.fuun_io.specs.Written.{Puts};
ghost use Rattle.fuun_top.specs.StatusLine.{file_name, line, number_of, placed_line, status_line};

use fuun_io::{Sink, WriteFault, put_pieces};
use itoa::Buffer;

/// A file that the words name.
#[derive(Clone, Copy, Debug, PartialEq, Eq)]
pub enum InFile {
    Dna,
    Prefix,
    Rna,
    Patch,
    Text,
    Script,
    Ppm,
    Source,
}

/// How a call of the program ended.
#[derive(Clone, Copy, Debug, PartialEq, Eq)]
pub enum Status {
    /// The output was written whole.
    Done,
    /// The words are in no form that is known.
    Usage,
    /// The machine made as many attempts as the budget allows, and did not finish.
    OutOfBudget,
    /// This attempt, counted from 0, would have made the DNA longer than the limit; where DNA is made of a text and is
    /// longer, 0.
    TooLong { attempt: u64 },
    /// The byte at this place of the file, counted from 0, is no letter of a base.
    BadBase { file: InFile, place: u64 },
    /// This line of the RNA file, counted from 1, is no command.
    BadRna { line: u64 },
    /// The patch file is no TOML document.
    BadToml,
    /// This row of the patch file, counted from 1, is refused; 0 is the heading.
    BadPatch { index: u64 },
    /// This row of the patch file, counted from 1, is the first that does not fit the DNA that those before it leave.
    Outside { index: u64 },
    /// The file has more than 2^26 bytes.
    InputTooLong { file: InFile },
    /// A file could not be read.
    ReadFault,
    /// The output could not be written.
    WriteFault,
    /// There was not enough memory.
    NoMemory,
    /// The prefix and the DNA, or the target that is to be explained, together have more bases than the limit.
    StartTooLong,
    /// This line of the text, counted from 1, is the text of no pair.
    BadText { line: u64 },
    /// This line of the text, counted from 1, has a pattern that no DNA is read as.
    Unreadable { line: u64 },
    /// What this attempt, counted from 0, does depends on the target.
    Depends { attempt: u64 },
    /// This line of the script, counted from 1, is no order.
    BadScript { line: u64 },
    /// The file does not begin as a picture of 600 by 600 pixels.
    BadPpm,
    /// At this line and column of the source, each counted from 1, a statement is in no form.
    BadSource { line: u64, column: u64 },
    /// At this line and column of the source stands a name that does not serve there.
    BadName { line: u64, column: u64 },
    /// At this line and column of the source stands a number of 2^63 or more, or the arrow of a pair with such a sum.
    BadNumber { line: u64, column: u64 },
    /// At this line and column of the source no DNA has the pattern any more.
    NoCode { line: u64, column: u64 },
}

impl InFile {
    fn name(self) -> &'static str
        ensures { result.now ≡ file_name self }
    {
        match self {
            InFile::Dna => "dna",
            InFile::Prefix => "prefix",
            InFile::Rna => "rna",
            InFile::Patch => "patch",
            InFile::Text => "text",
            InFile::Script => "script",
            InFile::Ppm => "ppm",
            InFile::Source => "source",
        }
    }
}

impl Status {
    /// The exit status of the program.
    pub fn number(&self) -> u8
        ensures { result ≡ number_of self.now }
    {
        match self {
            Status::Done => 0,
            Status::Usage => 2,
            Status::OutOfBudget => 3,
            Status::TooLong { .. } => 4,
            Status::BadBase { .. } => 5,
            Status::BadRna { .. } => 6,
            Status::BadToml => 7,
            Status::BadPatch { .. } => 8,
            Status::Outside { .. } => 9,
            Status::InputTooLong { .. } => 10,
            Status::ReadFault => 11,
            Status::WriteFault => 12,
            Status::NoMemory => 13,
            Status::StartTooLong => 14,
            Status::BadText { .. } => 15,
            Status::Unreadable { .. } => 16,
            Status::Depends { .. } => 17,
            Status::BadScript { .. } => 18,
            Status::BadPpm => 19,
            Status::BadSource { .. } => 20,
            Status::BadName { .. } => 21,
            Status::BadNumber { .. } => 22,
            Status::NoCode { .. } => 23,
        }
    }
}

/// Writes the line of a status: nothing for `Done`, else `fuun: `, its text and a line feed. It takes no memory.
pub fn put_status<S: Sink>(status: &Status, sink: &mut S) -> Result<(), WriteFault>
    ensures puts { Puts result (S.bytes sink.old) (S.bytes sink.new) (status_line status.now) }
    ensures cause { HasCause (S.faults sink.old) (S.faults sink.new) result }
{
    match *status {
        Status::Done => Ok(()),
        Status::Usage => put_pieces(sink, &[b"fuun: usage\n"]),
        Status::OutOfBudget => put_pieces(sink, &[b"fuun: out of budget\n"]),
        Status::TooLong { attempt } => put_too_long(sink, attempt),
        Status::BadBase { file, place } => put_bad_base(sink, file, place),
        Status::BadRna { line } => { put_numbered(sink, b"rna: line ", line, b" is not a command") }
        Status::BadToml => put_pieces(sink, &[b"fuun: ", b"patch: not a TOML document", b"\n"]),
        Status::BadPatch { index } => put_numbered(sink, b"patch: row ", index, b" is refused"),
        Status::Outside { index } => {
            put_numbered(sink, b"patch: row ", index, b" is outside the length")
        }
        Status::InputTooLong { file } => put_pieces(
            sink,
            &[b"fuun: ", file.name().as_bytes(), b": too long\n"],
        ),
        Status::ReadFault => put_pieces(sink, &[b"fuun: read fault\n"]),
        Status::WriteFault => put_pieces(sink, &[b"fuun: write fault\n"]),
        Status::NoMemory => put_pieces(sink, &[b"fuun: no memory\n"]),
        Status::StartTooLong => put_pieces(sink, &[b"fuun: start too long\n"]),
        Status::BadText { line } => put_numbered(sink, b"text: line ", line, b" is not a pair"),
        Status::Unreadable { line } => put_numbered(sink, b"text: line ", line, b" has no DNA"),
        Status::Depends { attempt } => {
            put_numbered(sink, b"attempt ", attempt, b" depends on the target")
        }
        Status::BadScript { line } => put_numbered(sink, b"script: line ", line, b" is refused"),
        Status::BadPpm => put_pieces(sink, &[b"fuun: ppm: refused\n"]),
        Status::BadSource { line, column } => put_placed(sink, line, column, b": out of form"),
        Status::BadName { line, column } => {
            put_placed(sink, line, column, b": a name that does not serve")
        }
        Status::BadNumber { line, column } => put_placed(sink, line, column, b": 2^63 or more"),
        Status::NoCode { line, column } => {
            put_placed(sink, line, column, b": no DNA has this pattern")
        }
    }
}

fn put_too_long<S: Sink>(sink: &mut S, attempt: u64) -> Result<(), WriteFault>
    ensures puts { Puts result (S.bytes sink.old) (S.bytes sink.new) (line (codes "too long at attempt " ++ decimal attempt)) }
    ensures cause { HasCause (S.faults sink.old) (S.faults sink.new) result }
{
    let mut buffer = Buffer::new();
    put_pieces(
        sink,
        &[
            b"fuun: ",
            b"too long at attempt ",
            buffer.format(attempt).as_bytes(),
            b"\n",
        ],
    )
}

fn put_bad_base<S: Sink>(sink: &mut S, file: InFile, place: u64) -> Result<(), WriteFault>
    ensures puts { Puts result (S.bytes sink.old) (S.bytes sink.new)
        (line (file_name file ++ codes ": byte " ++ decimal place ++ codes " is not a base")) }
    ensures cause { HasCause (S.faults sink.old) (S.faults sink.new) result }
{
    let mut buffer = Buffer::new();
    put_pieces(
        sink,
        &[
            b"fuun: ",
            file.name().as_bytes(),
            b": byte ",
            buffer.format(place).as_bytes(),
            b" is not a base\n",
        ],
    )
}

// Writes a line that tells a number between two texts.
fn put_numbered<S: Sink>(
    sink: &mut S,
    before: &[u8],
    number: u64,
    after: &[u8],
) -> Result<(), WriteFault>
    ensures puts { Puts result (S.bytes sink.old) (S.bytes sink.new) (line (before.now ++ decimal number ++ after.now)) }
    ensures cause { HasCause (S.faults sink.old) (S.faults sink.new) result }
{
    let mut buffer = Buffer::new();
    put_pieces(
        sink,
        &[
            b"fuun: ",
            before,
            buffer.format(number).as_bytes(),
            after,
            b"\n",
        ],
    )
}

// Writes a line that tells of a place of the source.
fn put_placed<S: Sink>(
    sink: &mut S,
    number: u64,
    column: u64,
    after: &[u8],
) -> Result<(), WriteFault>
    ensures puts { Puts result (S.bytes sink.old) (S.bytes sink.new) (placed_line number column after.now) }
    ensures cause { HasCause (S.faults sink.old) (S.faults sink.new) result }
{
    let mut line_buffer = Buffer::new();
    let mut column_buffer = Buffer::new();
    put_pieces(
        sink,
        &[
            b"fuun: ",
            b"source: line ",
            line_buffer.format(number).as_bytes(),
            b", column ",
            column_buffer.format(column).as_bytes(),
            after,
            b"\n",
        ],
    )
}
