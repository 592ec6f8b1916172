// The lines of a file's tag table. A read past the end of the file gives zeros.

#![tactic(auto)]

ghost use Rattle.std.specs.Prelude.{◌≡◌, ◌≤◌, length};
ghost use Rattle.profile.specs.Elements.{line_start};
ghost use Rattle.reader_spec.specs.Table as Table;
ghost use Rattle.reader_spec.specs.Finder.{line_of};
ghost use Rattle.table_lines.specs.Lines.{Tells, Found};

use tag_table::{ENTRY_SIZE, HEADER_SIZE};
use words::read_u32_be;

// Where the number of tags stands, and the first line.
const TAG_COUNT: usize = HEADER_SIZE;

const FIRST_LINE: usize = HEADER_SIZE + 4;

// Where in a line, after the signature, offset and size stand.
const LINE_OFFSET: usize = 4;

const LINE_ELEMENT_SIZE: usize = 8;

#[tactic(auto, unfolding(reader_spec::specs::Table::tags_of))]
pub fn tag_count(file: &[u8]) -> u32
    ensures { result ≡ Table.tags_of file.now }
{
    read_u32_be(file, TAG_COUNT)
}

// Where the elements start: past the table.
pub fn elements_start(file: &[u8]) -> usize
    ensures { result ≡ line_start (Table.tags_of file.now) }
{
    FIRST_LINE + ENTRY_SIZE * tag_count(file) as usize
}

// Where an element starts, and how many bytes it has.
#[derive(Clone, Copy, Debug, PartialEq, Eq)]
pub struct Line {
    pub offset: u32,
    pub size: u32,
}

// What a line of the table says, and zeros where there is no such line: what is read from a file goes by zeros there, as past the end of the file.
pub fn line_at(file: &[u8], line: usize) -> Line
    ensures { Tells result (Table.line_in file.now line) }
{
    if tag_count(file) as usize <= line {
        return Line { offset: 0, size: 0 };
    }
    let at = FIRST_LINE + ENTRY_SIZE * line;
    Line {
        offset: read_u32_be(file, at + LINE_OFFSET),
        size: read_u32_be(file, at + LINE_ELEMENT_SIZE),
    }
}

// What the first line with a signature says.
pub fn line_of(file: &[u8], signature: [u8; 4]) -> Option<Line>
    requires { line_start (Table.tags_of file.now) ≤ length file.now }
    ensures { Found signature result (line_of signature (Table.entries_of file.now) Table.absent) }
{
    for i in 0..tag_count(file) as usize {
        let at = FIRST_LINE + ENTRY_SIZE * i;
        if buffer::same_bytes(&file[at..at + LINE_OFFSET], &signature) {
            return Some(line_at(file, i));
        }
    }
    None
}
