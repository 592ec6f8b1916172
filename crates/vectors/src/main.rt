// Replays the fixed list, the file `list` of data/: a record a line, which holds an input and the answer that is due. Prints for each type of
// record how many were tried and how many the crates answer so, byte for byte; how often each refusal was such an answer; and the first line that
// differs. The answers are the original Rust's, RFC 1321's and 01's; differential/README.md says what a record holds and how the list is made.

#![tactic(auto)]

ghost use Rattle.std.specs.Prelude.{◌≡◌, length};

use buffer::{byte_at, same_bytes};
use color_encoding::{JxlColorEncoding, PrimariesXy, WhiteXy};
use encoding_plan::Encoding;
use job_output::MOST_LISTING;
use reading::Reading;
use refusals::Refusal;
use std::io;
use words::read_u32_be;
use writer::MAX_WRITTEN;

// What an output holds before it is lent.
const UNTOUCHED: u8 = 165;

// ---- parts of a slice; one that is not there is empty

fn part(s: &[u8], at: usize, n: usize) -> &[u8] {
    s.get(at..at.wrapping_add(n)).unwrap_or(&[])
}

fn lent(s: &mut [u8], n: usize) -> &mut [u8] {
    s.get_mut(..n).unwrap_or(&mut [])
}

// ---- an answer

// The most bytes that the fields of a record hold together, or an answer.
const MOST_FIELD: usize = 65536;

// What is put one after another. What has no room is left out.
#[derive(Drop)]
struct Answer {
    bytes: [u8; MOST_FIELD],
    len: usize,
}

impl Answer {
    fn put(&mut self, bytes: &[u8]) {
        let end = self.len.wrapping_add(bytes.len());
        if let Some(room) = self.bytes.get_mut(self.len..end) {
            room.copy_from_slice(bytes);
            self.len = end;
        }
    }

    fn put_word(&mut self, word: u32) {
        self.put(&word.to_be_bytes());
    }

    fn put_words(&mut self, words: &[u32]) {
        for word in words {
            self.put_word(*word);
        }
    }

    fn put_signed(&mut self, numbers: &[i32]) {
        for number in numbers {
            self.put(&number.to_be_bytes());
        }
    }

    fn put_floats(&mut self, floats: &[f32]) {
        for x in floats {
            self.put_word(numbers::f32_to_bits(*x));
        }
    }

    fn put_digest(&mut self, bytes: &[u8]) {
        self.put(&md5_digest::compute_md5(bytes));
    }

    fn put_number_and_digest(&mut self, number: usize, bytes: &[u8]) {
        self.put_word((number % 0x1_0000_0000) as u32);
        self.put_digest(bytes);
    }

    // A status, and the nine numbers of a matrix, row by row; they are zero where it is refused.
    fn put_matrix(&mut self, matrix: Result<[[f32; 3]; 3], Refusal>) {
        match matrix {
            Ok(m) => {
                self.put_word(0);
                self.put_floats(&icc_matrix::rows(m));
            }
            Err(refusal) => {
                self.put_word(refusal.number());
                self.put_words(&[0; 9]);
            }
        }
    }
}

// ---- the leaves

fn float(input: &[u8], at: usize) -> f32 {
    numbers::f32_from_bits(read_u32_be(input, at))
}

fn white(input: &[u8]) -> WhiteXy {
    WhiteXy {
        wx: float(input, 0),
        wy: float(input, 4),
    }
}

// f: a float; 0 and its fixed number, or 1 where it is out of range.
fn fixed(input: &[u8], answer: &mut Answer) {
    match numbers::to_s15_fixed_16(float(input, 0)) {
        Some(fixed) => answer.put_signed(&[0, fixed.number]),
        None => answer.put_words(&[1, 0]),
    }
}

// n: an f64; the f32 that it narrows to.
fn narrowed(input: &[u8], answer: &mut Answer) {
    let bits = u64::from(read_u32_be(input, 0)) << 32 | u64::from(read_u32_be(input, 4));
    answer.put_floats(&[floats::f64_to_f32(numbers::f64_from_bits(bits))]);
}

// t: a float; its text of seven decimals.
fn decimals(input: &[u8], answer: &mut Answer) {
    let text = decimal::seven_decimals(float(input, 0));
    answer.put(part(&text.bytes, 0, text.len));
}

// c: a white and primaries; the adaptation to D50 and the RGB matrix.
fn columns(input: &[u8], answer: &mut Answer) {
    let white = white(input);
    let primaries = PrimariesXy {
        rx: float(input, 8),
        ry: float(input, 12),
        gx: float(input, 16),
        gy: float(input, 20),
        bx: float(input, 24),
        by: float(input, 28),
    };
    answer.put_matrix(adaptation::chad_matrix(white));
    answer.put_matrix(colorimetry::create_icc_rgb_matrix(primaries, white));
}

// g: a gray white; 0 and its XYZ, or 3.
fn gray_white(input: &[u8], answer: &mut Answer) {
    match white_point::cie_xyz_from_white_cie_xy(white(input)) {
        Ok(xyz) => {
            answer.put_word(0);
            answer.put_floats(&xyz);
        }
        Err(refusal) => answer.put_word(refusal.number()),
    }
}

// ---- reader and finder

// Whether the finder hands back the element that a line of the tag table names.
fn finds(file: &[u8], line: &[u8]) -> bool {
    let signature = [
        byte_at(line, 0),
        byte_at(line, 1),
        byte_at(line, 2),
        byte_at(line, 3),
    ];
    let offset = read_u32_be(line, 4) as usize;
    let size = read_u32_be(line, 8) as usize;
    same_bytes(reader::find(file, signature), part(file, offset, size))
}

// Whether the finder finds each element of the tag table, and nothing for `mluc`, which begins an element and is no tag.
fn finds_all(file: &[u8]) -> bool {
    let tags = (read_u32_be(file, 128) % 1000) as usize;
    (0..tags).all(|i| finds(file, part(file, 132 + 12 * i, 12)))
        && reader::find(file, *b"mluc").is_empty()
}

fn put_reading(number: u32, r: Reading, answer: &mut Answer) {
    answer.put_words(&[number, r.kind, r.intent, r.curve]);
    answer.put_signed(&[r.gamma]);
    answer.put_word(r.cicp);
    answer.put_signed(&[r.white_x, r.white_z]);
    answer.put_word((r.letters % 65536) as u32);
    answer.put_signed(&r.chad);
    answer.put_signed(&r.columns);
    answer.put_words(&[r.maker, r.model, r.id_not_computed, r.adapted]);
    answer.put(part(&r.text, 0, r.letters));
}

// r: a file; the reader's answer. The elements of an accepted file are found; of a refused one none is.
fn reading(file: &[u8], answer: &mut Answer) -> bool {
    let told = reader::number_and_plan(file);
    put_reading(told.number, told.plan, answer);
    if told.number == 0 {
        finds_all(file)
    } else {
        reader::find(file, *b"desc").is_empty()
    }
}

// ---- the writer

// The length and the MD5 of the text.
fn put_text(e: JxlColorEncoding, answer: &mut Answer) {
    let text = text::get_color_encoding_description(e);
    answer.put_number_and_digest(text.len, part(&text.bytes, 0, text.len));
}

// The length or the refusal, the MD5 of the whole output, and the text. What is written is read, and its elements are found.
fn written(encoding: Encoding, capacity: usize, answer: &mut Answer) -> bool {
    let mut space = [UNTOUCHED; 1300];
    let number = match writer::maybe_create_profile(encoding, lent(&mut space, capacity)) {
        Ok(written) => written.length,
        Err(refusal) => refusal.number(),
    };
    answer.put_number_and_digest(number as usize, part(&space, 0, capacity));
    put_text(encoding.color, answer);
    finds_all(part(&space, 0, number as usize))
}

// The section of gray with the mark "adapted", of which no job knows.
const ADAPTED: u8 = 4;

// e: a section, the length of the output, and the bytes of an entry of that section.
fn encoding(input: &[u8], answer: &mut Answer) -> bool {
    let section = byte_at(input, 0);
    let entry = part(input, 5, input.len().wrapping_sub(5));
    let code = match section {
        2 => job_entry::rgb_encoding(entry),
        3 => job_entry::xyb_encoding(entry),
        _ => job_entry::gray_encoding(entry),
    };
    let Ok(color) = code else {
        return false;
    };
    let encoding = Encoding {
        adapted: section == ADAPTED,
        ..Encoding::from(color)
    };
    written(encoding, read_u32_be(input, 1) as usize, answer)
}

// ---- jobs

// The length or the refusal.
fn output_number(output: Result<usize, Refusal>) -> usize {
    match output {
        Ok(n) => n,
        Err(refusal) => refusal.number() as usize,
    }
}

// An output of a job, its profiles or its listing: the answer for a space that is one byte too short, and the MD5 of that space; then the same for one
// of the right length.
fn put_output<F: Fn(&mut [u8]) -> Result<usize, Refusal>>(
    write: F,
    space: &mut [u8],
    answer: &mut Answer,
)
    requires { F.IsAlwaysCallable write }
{
    let n = space.len();
    let short = lent(&mut *space, n.wrapping_sub(1));
    let refused = output_number(write(&mut *short));
    answer.put_number_and_digest(refused, short);
    let length = output_number(write(&mut *space));
    answer.put_number_and_digest(length, space);
}

// The i-th entry by itself: the length or the refusal of its profile, 0 where there is no such entry. Its profile must be what the profiles of the whole
// job go on with; answers what they have behind it.
fn put_entry<'a>(
    job: &[u8],
    i: usize,
    profiles: &'a [u8],
    answer: &mut Answer,
) -> Option<&'a [u8]> {
    let mut space = [UNTOUCHED; MAX_WRITTEN];
    match job_output::profile(job, i, &mut space) {
        Ok(Some(n)) => {
            answer.put_word(n);
            profiles.strip_prefix(part(&space, 0, n as usize))
        }
        Ok(None) => {
            answer.put_word(0);
            Some(profiles)
        }
        Err(refusal) => {
            answer.put_word(refusal.number());
            Some(profiles)
        }
    }
}

// The entries of a job and one past the last. Whether all of its profiles are theirs.
fn put_entries(job: &[u8], entries: u32, profiles: &[u8], answer: &mut Answer) -> bool {
    let mut rest = profiles;
    for i in 0..entries as usize + 1 {
        let Some(behind) = put_entry(job, i, rest, answer) else {
            return false;
        };
        rest = behind;
    }
    rest.is_empty()
}

fn put_listing(job: &[u8], answer: &mut Answer) {
    let mut space = [UNTOUCHED; MOST_LISTING];
    let n = job_output::listing_length(job);
    put_output(
        |space| job_output::listing(job, space),
        lent(&mut space, n),
        answer,
    );
    answer.put(part(&space, 0, n));
}

// j: a job; its refusal and the number of its entries, its profiles, its entries one by one, its listing.
fn job(job: &[u8], answer: &mut Answer) -> bool {
    let entries = match job::entries(job) {
        Ok(n) => {
            answer.put_words(&[0, n]);
            n
        }
        Err(refusal) => {
            answer.put_words(&[refusal.number(), 0]);
            0
        }
    };
    let mut space = room();
    let n = job_output::profiles_length(job);
    put_output(
        |space| job_output::profiles(job, space),
        lent(&mut space, n),
        answer,
    );
    let theirs = put_entries(job, entries, part(&space, 0, n), answer);
    put_listing(job, answer);
    theirs
}

// ---- the list

// What a hexadecimal digit counts.
fn digit(b: u8) -> Option<u8> {
    match b {
        b'0'..=b'9' => Some(b - b'0'),
        b'a'..=b'f' => Some(b - b'a' + 10),
        _ => None,
    }
}

// A byte takes its two digits one after the other.
fn put_digit(bytes: &mut [u8], n: usize, digit: u8) {
    if let Some(byte) = bytes.get_mut(n / 2) {
        *byte = *byte % 16 * 16 | digit;
    }
}

// A record: how many bytes its input and its answer have, and what comes behind its line.
#[derive(Clone, Copy)]
struct Record<'a> {
    input: usize,
    answer: usize,
    behind: &'a [u8],
}

// Decodes the fields of a line, which begin behind its letter. None where they are malformed or the line has no end. A digit too many counts as a byte,
// which no answer has.
fn record_in<'a>(list: &'a [u8], bytes: &mut [u8]) -> Option<Record<'a>> {
    let mut n = 0usize;
    let mut input = 0usize;
    for (i, letter) in list.iter().enumerate() {
        match *letter {
            b'\n' => {
                return Some(Record {
                    input: input / 2,
                    answer: n.wrapping_sub(input).wrapping_add(1) / 2,
                    behind: &list[i + 1..],
                });
            }
            b'=' => input = n,
            b' ' => {}
            b => {
                put_digit(&mut *bytes, n, digit(b)?);
                n = n.wrapping_add(1);
            }
        }
    }
    None
}

// The answer of the crates to an input. Whether each check of the program passes.
fn put_answer(letter: u8, input: &[u8], answer: &mut Answer) -> bool {
    match letter {
        b'e' => encoding(input, answer),
        b'r' => reading(input, answer),
        b'j' => job(input, answer),
        _ => {
            put_leaf(letter, input, answer);
            true
        }
    }
}

fn put_leaf(letter: u8, input: &[u8], answer: &mut Answer) {
    match letter {
        b'm' | b'b' => answer.put_digest(input),
        b'f' => fixed(input, answer),
        b'n' => narrowed(input, answer),
        b't' => decimals(input, answer),
        b'c' => columns(input, answer),
        b'g' => gray_white(input, answer),
        _ => {}
    }
}

// ---- counting

// The places of a tally: a letter for how many records of the type were tried, its capital for how many matched; a refusal for how often it was the
// answer of a matched record; FIRST for the first line that differs, or 0.
const PLACES: usize = 256;

const FIRST: usize = 255;

fn mark(tally: &mut [u64; PLACES], at: u8) {
    let place = at as usize;
    tally[place] = tally[place].wrapping_add(1);
}

// The capital of a letter.
fn capital(letter: u8) -> u8 {
    letter % 32 + 64
}

// The refusal with which an answer of writer, reader or job begins, or 0.
fn refusal(letter: u8, number: u32) -> u8 {
    match letter {
        b'e' | b'r' | b'j' if number < 44 => number as u8,
        _ => 0,
    }
}

// The room for the fields of a record, and for the answer of the crates.
#[derive(Drop)]
struct Rooms {
    fields: [u8; MOST_FIELD],
    answer: Answer,
}

// The refusal of a record that matches.
fn outcome(letter: u8, record: Record<'_>, rooms: &mut Rooms) -> Option<u8> {
    let input = part(&rooms.fields, 0, record.input);
    let due = part(&rooms.fields, record.input, record.answer);
    rooms.answer.len = 0;
    let passed = put_answer(letter, input, &mut rooms.answer);
    let answer = part(&rooms.answer.bytes, 0, rooms.answer.len);
    if passed && !answer.is_empty() && same_bytes(answer, due) {
        Some(refusal(letter, read_u32_be(answer, 0)))
    } else {
        None
    }
}

fn count(tally: &mut [u64; PLACES], letter: u8, outcome: Option<u8>, line: u64) {
    mark(&mut *tally, letter);
    match outcome {
        Some(refusal) => {
            mark(&mut *tally, capital(letter));
            mark(tally, refusal);
        }
        None if tally[FIRST] == 0 => tally[FIRST] = line,
        None => {}
    }
}

// Goes over the records of a list, which begin in line 2, up to one that is malformed.
fn replay(records: &[u8], tally: &mut [u64; PLACES]) {
    let mut rooms = Rooms {
        fields: [0; MOST_FIELD],
        answer: Answer {
            bytes: [0; MOST_FIELD],
            len: 0,
        },
    };
    let mut rest = records;
    for line in 2..u64::MAX {
        let Some((letter, behind)) = rest.split_first() else {
            return;
        };
        let Some(record) = record_in(behind, &mut rooms.fields) else {
            count(tally, *letter, None, line);
            return;
        };
        count(
            &mut *tally,
            *letter,
            outcome(*letter, record, &mut rooms),
            line,
        );
        rest = record.behind;
    }
}

// ---- the program

fn print_types<R: Print>(rt: &R, tally: &[u64; PLACES]) -> io::Result<()> {
    for letter in b"mbfntcgerj" {
        let name = char::from(*letter);
        let matched = tally[capital(*letter) as usize];
        let tried = tally[*letter as usize];
        println!(rt; "{name} {matched} of {tried}")?;
    }
    Ok(())
}

fn print_refused<R: Print>(
    rt: &R,
    who: &str,
    refusals: &[u8],
    tally: &[u64; PLACES],
) -> io::Result<()> {
    print!(rt; "{who} refused")?;
    let mut before = " ";
    for refusal in refusals {
        let often = tally[*refusal as usize];
        print!(rt; "{before}{refusal}: {often}")?;
        before = ", ";
    }
    println!(rt; "")
}

// Space for the list, or for the profiles of a job. The `ensures` gives only the length, so that no proof spells the bytes out.
fn room() -> [u8; 1650000]
    ensures { 1650000 ≡ length result }
{
    [UNTOUCHED; 1650000]
}

fn main(rt: HostRuntime) -> io::Result<()> {
    let mut space = room();
    let mut tally = [0u64; PLACES];
    let n = streams::read_file(&rt, "list", &mut space);
    let list = part(&space, 0, n);
    match list.strip_prefix(b"merqyduk vectors, format 5, seed 1, jxl-rs 9b3c1af91e\n") {
        Some(records) => replay(records, &mut tally),
        None => tally[FIRST] = 1,
    }
    print_types(&rt, &tally)?;
    print_refused(&rt, "writer", &[1, 3, 4, 5, 6, 7, 8, 9], &tally)?;
    print_refused(&rt, "reader", &[21, 22, 23, 24, 25, 26, 27, 28], &tally)?;
    print_refused(&rt, "job", &[41, 42, 43], &tally)?;
    let line = tally[FIRST];
    println!(rt; "first line that differs {line}")
}
