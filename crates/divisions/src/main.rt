// Searches sources for divisions and remainders (order 3 of 02). Each argument NAME is a source, a copy of crates/NAME.rt; the last, `trial`, holds
// lines to try the search by. Printed are the faults, each with its line, and for each source how many divisions by a power of two and how many faults
// it has. A fault is
// - a division or a remainder whose right operand is not an integer literal that is a power of two,
// - a call of something that is in none of the sources: it may divide,
// - what cannot be read.

#![tactic(auto)]

use buffer::{byte_at, same_bytes};
use scanner::letters_at;
use std::env::{Env, FillError};
use std::fs::Files;
use std::io;

// A part of a slice; one that is not there is empty.
fn part(s: &[u8], start: usize, end: usize) -> &[u8] {
    s.get(start..end).unwrap_or(&[])
}

// ---- tokens
// White space and comments are none. What could end in more than one way, such as a raw string, a block comment or a comment within a contract, is
// none either: it cannot be read, so that nothing hides in it.

// The brackets of a contract, ⌜ and ⌝, and λ.
const OPEN: [u8; 3] = *b"\xe2\x8c\x9c";

const CLOSE: [u8; 3] = *b"\xe2\x8c\x9d";

const LAMBDA: [u8; 2] = *b"\xce\xbb";

fn is_letter(b: u8) -> bool {
    b.is_ascii_alphabetic() || b == b'_'
}

// Whether a string stops here: at its end, or where it could go on in more than one way.
fn text_stops(s: &[u8], at: usize) -> bool {
    match byte_at(s, at) {
        b'"' => byte_at(s, at.wrapping_sub(1)) != b'\\',
        b'\\' => byte_at(s, at.wrapping_add(1)) == b'\\',
        b'\n' | 128.. => true,
        _ => false,
    }
}

// The same for a contract. One that holds a brace is refused, since its clause ends at one.
fn contract_stops(s: &[u8], at: usize) -> bool {
    match byte_at(s, at) {
        b'{' | b'}' | b'"' => true,
        b'-' => byte_at(s, at.wrapping_add(1)) == b'-',
        0xe2 => letters_at(s, at, &CLOSE) || letters_at(s, at, &OPEN),
        _ => false,
    }
}

// The same for a bare contract. One that holds `//` is refused too, behind which the brace that ends it could be within a comment.
fn bare_stops(s: &[u8], at: usize) -> bool {
    contract_stops(s, at) || letters_at(s, at, b"//")
}

// The first place from `from` on where what takes several bytes stops; where it doesn't, the end of the source.
fn run_end<F: Fn(usize) -> bool>(s: &[u8], from: usize, stops: F) -> usize
    requires { F.IsAlwaysCallable stops }
{
    (from..s.len()).find(|at| stops(*at)).unwrap_or(s.len())
}

// The same of what takes a single byte to stop.
fn byte_from<F: Fn(u8) -> bool>(s: &[u8], from: usize, stops: F) -> usize
    requires { F.IsAlwaysCallable stops }
{
    run_end(s, from, |at| stops(byte_at(s, at)))
}

fn line_end(s: &[u8], from: usize) -> usize {
    byte_from(s, from, |b| b == b'\n')
}

// The end of a run with its last letters, or its start if these do not end it.
fn closed_end<F: Fn(usize) -> bool>(s: &[u8], start: usize, last: &[u8], stops: F) -> usize
    requires { F.IsAlwaysCallable stops }
{
    let end = run_end(s, start.wrapping_add(last.len()), stops);
    if letters_at(s, end, last) {
        end.wrapping_add(last.len())
    } else {
        start
    }
}

// The place after the white space or the comment that begins here.
fn blank_end(s: &[u8], at: usize) -> usize {
    let b = byte_at(s, at);
    if b == b' ' || b == b'\n' {
        return at.wrapping_add(1);
    }
    if letters_at(s, at, b"//") {
        return line_end(s, at);
    }
    at
}

// The place after a name or a number. No string begins here but one of bytes: a raw string ends in another way.
fn word_end(s: &[u8], at: usize) -> usize {
    let end = byte_from(s, at, |b| !(is_letter(b) || b.is_ascii_digit()));
    match byte_at(s, end) {
        b'"' | b'\'' | b'#' if !same_bytes(part(s, at, end), b"b") => at,
        _ => end,
    }
}

// The place after a character, or after the ' of a lifetime. An escape of another form than \n and \x41 is refused.
fn quote_end(s: &[u8], at: usize) -> usize {
    let escaped = byte_at(s, at.wrapping_add(1)) == b'\\';
    let last = if !escaped {
        at.wrapping_add(2)
    } else if byte_at(s, at.wrapping_add(2)) == b'x' {
        at.wrapping_add(5)
    } else {
        at.wrapping_add(3)
    };
    if byte_at(s, last) == b'\'' {
        last.wrapping_add(1)
    } else if escaped {
        at
    } else {
        at.wrapping_add(1)
    }
}

// How many of two bytes are one operator or bracket, or λ. Of the operators of two letters only those that the search asks for are one.
fn mark_length(first: u8, second: u8) -> usize {
    match (first, second) {
        (b'/', b'*') => 0,
        (b'/' | b'%', b'=') | (b':', b':') | (b'.', b'.') | (0xce, 0xbb) => 2,
        (33..=126, _) => 1,
        _ => 0,
    }
}

// A token of a source. It is empty at the end of the source and where none can be read.
#[derive(Clone, Copy)]
struct Token<'a> {
    source: &'a [u8],
    start: usize,
    end: usize,
}

impl<'a> Token<'a> {
    fn at(source: &'a [u8], start: usize) -> Token<'a> {
        let b = byte_at(source, start);
        let end = if is_letter(b) || b.is_ascii_digit() {
            word_end(source, start)
        } else if b == b'"' {
            closed_end(source, start, b"\"", |at| text_stops(source, at))
        } else if b == b'\'' {
            quote_end(source, start)
        } else if letters_at(source, start, &OPEN) {
            closed_end(source, start, &CLOSE, |at| contract_stops(source, at))
        } else {
            start.wrapping_add(mark_length(b, byte_at(source, start.wrapping_add(1))))
        };
        Token { source, start, end }
    }

    // The first token from a place on.
    fn from(source: &'a [u8], from: usize) -> Token<'a> {
        let mut at = from;
        while at < source.len() {
            let next = blank_end(source, at);
            if next <= at {
                break;
            }
            at = next;
        }
        Token::at(source, at)
    }

    fn next(self) -> Token<'a> {
        Token::from(self.source, self.end)
    }

    // The text from its start to the end of another token.
    fn through(self, last: Token<'a>) -> &'a [u8] {
        part(self.source, self.start, last.end)
    }

    fn text(self) -> &'a [u8] {
        self.through(self)
    }

    fn is(self, text: &[u8]) -> bool {
        same_bytes(self.text(), text)
    }

    fn is_empty(self) -> bool {
        self.end <= self.start
    }

    fn first_byte(self) -> u8 {
        byte_at(self.source, self.start)
    }

    fn is_name(self) -> bool {
        !self.is_empty() && is_letter(self.first_byte())
    }
}

// ---- the right operand of a division

// The number that an integer literal states up to the suffix of its type. None for another literal, or one of 2^64 and more.
fn value(literal: &[u8]) -> Option<u64> {
    let (base, start) = match byte_at(literal, 1) {
        b'x' => (16, 2),
        b'o' => (8, 2),
        b'b' => (2, 2),
        _ => (10, 0),
    };
    let mut n = 0u64;
    for b in part(literal, start, literal.len()) {
        match *b {
            b'u' | b'i' => break,
            b'_' => {}
            // Behind 2^60 and more a digit may not fit.
            _ if 0x1000_0000_0000_0000 <= n => return None,
            b => n = n * u64::from(base) + u64::from(char::from(b).to_digit(base)?),
        }
    }
    Some(n)
}

// Whether a literal is the whole right operand: what binds closer does not stand behind it, and behind the one of /= or %= the statement ends.
fn is_whole(operator: Token, behind: Token) -> bool {
    match behind.first_byte() {
        b';' => true,
        b'.' | b'(' | b'[' | b'?' => false,
        _ => operator.text().last() != Some(&b'=') && !behind.is(b"as"),
    }
}

fn by_power_of_two(operator: Token) -> bool {
    let operand = operator.next();
    operand.first_byte().is_ascii_digit()
        && value(operand.text()).is_some_and(|n| n.is_power_of_two())
        && is_whole(operator, operand.next())
}

// ---- calls

// Whether a source is the module's: NAME/src/lib that of the crate NAME, NAME/src/MODULE that of NAME::MODULE.
fn is_of_module(source: &[u8], module: &[u8]) -> bool {
    let n = byte_from(module, 0, |b| b == b':');
    let file = n.wrapping_add(5);
    if !same_bytes(part(source, 0, n), part(module, 0, n))
        || !same_bytes(part(source, n, file), b"/src/")
    {
        return false;
    }
    let name = part(source, file, source.len());
    if n == module.len() {
        return same_bytes(name, b"lib");
    }
    same_bytes(name, part(module, n.wrapping_add(2), module.len()))
}

// The most bytes that an argument is read of; a longer one names no source.
const MOST_NAME: usize = 4096;

// How many arguments there are, with the program's name before them.
fn argument_count<R: Env>(rt: &R) -> usize {
    let mut name = [0u8; MOST_NAME];
    for i in 0..usize::MAX {
        if let Err(FillError::NotPresent) = rt.arg(i, &mut name) {
            return i;
        }
    }
    usize::MAX
}

// Puts an argument into a buffer, and answers how many bytes it has; 0 for one that does not fit.
fn argument<R: Env>(rt: &R, i: usize, name: &mut [u8]) -> usize {
    rt.arg(i, name).unwrap_or(0)
}

fn argument_is_of<R: Env>(rt: &R, i: usize, module: &[u8]) -> bool {
    let mut name = [0u8; MOST_NAME];
    let n = argument(rt, i, &mut name);
    is_of_module(part(&name, 0, n), module)
}

// Whether the module's source is among the arguments.
fn is_given<R: Env>(rt: &R, module: &[u8]) -> bool {
    (1..argument_count(rt)).any(|i| argument_is_of(rt, i, module))
}

// The name behind a `::`, which stands behind a token; without them, nothing.
fn name_behind(t: Token) -> Token {
    let colons = t.next();
    let name = colons.next();
    if colons.is(b"::") && name.is_name() {
        name
    } else {
        Token { start: t.end, ..t }
    }
}

// Whether a path leads into the sources or to the one function beside them that is called on the way. A type needs no search of its own: that of
// another module is named in a `use`, whose path is searched.
fn is_known<R: Env>(rt: &R, first: Token, second: Token, third: Token) -> bool {
    if first.first_byte().is_ascii_uppercase()
        || same_bytes(first.through(third), b"f32::to_bits")
    {
        return true;
    }
    let module = if third.is_empty() { first } else { second };
    !second.is_empty() && is_given(rt, first.through(module)) && !third.next().is(b"::")
}

// Whether a token is the `.` before the call of a method other than `len`.
fn is_method(dot: Token) -> bool {
    let name = dot.next();
    dot.is(b".") && name.is_name() && !name.is(b"len") && name.next().is(b"(")
}

// ---- the search

// What a token is to the search.
#[derive(Clone, Copy)]
enum Kind {
    Harmless,
    ByPowerOfTwo,
    Fault,
}

// That, and the place where the search goes on.
#[derive(Clone, Copy)]
struct Found {
    kind: Kind,
    next: usize,
}

fn harmless(next: usize) -> Found {
    Found {
        kind: Kind::Harmless,
        next,
    }
}

fn fault_if(fault: bool, next: usize) -> Found {
    let kind = if fault { Kind::Fault } else { Kind::Harmless };
    Found { kind, next }
}

fn divided(operator: Token) -> Found {
    let kind = if by_power_of_two(operator) {
        Kind::ByPowerOfTwo
    } else {
        Kind::Fault
    };
    Found {
        kind,
        next: operator.end,
    }
}

// What cannot be read: the search goes on behind its line.
fn unread(t: Token) -> Found {
    fault_if(true, line_end(t.source, t.start))
}

// The token behind a name; where none stands, the token itself.
fn past_name(t: Token) -> Token {
    if t.is_name() { t.next() } else { t }
}

// The token behind λ, a name and a point; where they do not stand, the token itself.
fn past_lambda(t: Token) -> Token {
    let point = past_name(t.next());
    if t.is(&LAMBDA) && point.is(b".") {
        point.next()
    } else {
        t
    }
}

// The } behind antt's text, which is within corner brackets, with λ, a name and a point before them or none, or, where no λ begins it, bare. Of another
// text, another token.
fn contract_close(first: Token) -> Token {
    let s = first.source;
    let contract = past_lambda(first);
    if letters_at(s, contract.start, &OPEN) {
        return contract.next();
    }
    if first.is(&LAMBDA) {
        return first;
    }
    Token::at(s, run_end(s, first.start, |at| bare_stops(s, at)))
}

// A clause is { ⌜ … ⌝ }, { λ r. ⌜ … ⌝ } or { … }, with a name before it or none. So all of antt's text stands within corner brackets, or within braces and
// holds neither them nor a brace, a quote or what could begin a comment.
fn clause(word: Token) -> Found {
    let open = past_name(word.next());
    let close = contract_close(open.next());
    if open.is(b"{") && close.is(b"}") {
        harmless(close.end)
    } else {
        unread(word)
    }
}

// A `ghost use` ends on its line.
fn ghost_use(word: Token) -> Found {
    let end = byte_from(word.source, word.end, |b| b == b';' || b == b'\n');
    if word.next().is(b"use") && byte_at(word.source, end) == b';' {
        harmless(end)
    } else {
        unread(word)
    }
}

// A `use` names a path: a crate alone could be given the name of another.
fn used(word: Token) -> Found {
    fault_if(!word.next().next().is(b"::"), word.end)
}

fn path<R: Env>(rt: &R, first: Token) -> Found {
    if !first.next().is(b"::") {
        return harmless(first.end);
    }
    let second = name_behind(first);
    let third = name_behind(second);
    fault_if(!is_known(rt, first, second, third), third.end)
}

fn named<R: Env>(rt: &R, word: Token) -> Found {
    if word.is(b"requires") || word.is(b"ensures") {
        clause(word)
    } else if word.is(b"ghost") {
        ghost_use(word)
    } else if word.is(b"use") {
        used(word)
    } else if word.is(b"extern") || word.is(b"asm") {
        fault_if(true, word.end)
    } else {
        path(rt, word)
    }
}

fn judged<R: Env>(rt: &R, t: Token) -> Found {
    if t.source.len() <= t.start {
        return harmless(t.source.len());
    }
    if t.is_empty() {
        return unread(t);
    }
    match t.first_byte() {
        b'/' | b'%' => divided(t),
        b'.' => fault_if(is_method(t), t.end),
        // A contract or λ outside a clause.
        128.. => unread(t),
        _ if t.is_name() => named(rt, t),
        _ => harmless(t.end),
    }
}

// ---- what is printed

fn print_fault<R: Print>(rt: &R, name: &[u8], s: &[u8], at: usize) -> io::Result<()> {
    let before = part(s, 0, at);
    let line = before
        .iter()
        .filter(|b| **b == b'\n')
        .count()
        .wrapping_add(1);
    let start = before
        .iter()
        .rposition(|b| *b == b'\n')
        .map_or(0, |i| i.wrapping_add(1));
    rt.write_all(name)?;
    rt.write_all(b":")?;
    rt.print(line)?;
    rt.write_all(b": ")?;
    rt.write_all(part(s, start, line_end(s, at)))?;
    rt.write_all(b"\n")
}

fn print_counts<R: Print>(rt: &R, name: &[u8], by_powers: u64, faults: u64) -> io::Result<()> {
    rt.write_all(name)?;
    println!(rt; ": {by_powers} by powers of two, faults {faults}")
}

fn search<R: Env + Print>(rt: &R, name: &[u8], s: &[u8]) -> io::Result<()> {
    let mut by_powers = 0u64;
    let mut faults = 0u64;
    let mut at = 0usize;
    while at < s.len() {
        let t = Token::from(s, at);
        let found = judged(rt, t);
        match found.kind {
            Kind::Harmless => {}
            Kind::ByPowerOfTwo => by_powers = by_powers.wrapping_add(1),
            Kind::Fault => {
                faults = faults.wrapping_add(1);
                print_fault(rt, name, s, t.start)?;
            }
        }
        // Never so, but the prover must see that the search ends; the missing counts would tell.
        if found.next <= at {
            return Ok(());
        }
        at = found.next;
    }
    print_counts(rt, name, by_powers, faults)
}

// The most bytes that a source is read of, and one more.
const MOST_TEXT: usize = 65536;

// Puts a file into a buffer, and answers how many bytes it has; 0 where it cannot be opened.
fn file<R: Files>(rt: &R, name: &[u8], text: &mut [u8]) -> usize {
    let Ok(path) = str::from_utf8(name) else {
        return 0;
    };
    streams::read_file(rt, path, text)
}

fn search_argument<R: Env + Files + Print>(rt: &R, i: usize) -> io::Result<()> {
    let mut name = [0u8; MOST_NAME];
    let mut text = [0u8; MOST_TEXT];
    let n = argument(rt, i, &mut name);
    let name = part(&name, 0, n);
    let len = file(rt, name, &mut text);
    // No counts are printed of a source that is missing, empty or not read whole.
    if len != 0 && len != text.len() {
        return search(rt, name, part(&text, 0, len));
    }
    Ok(())
}

fn main(rt: HostRuntime) -> io::Result<()> {
    for i in 1..argument_count(&rt) {
        search_argument(&rt, i)?;
    }
    Ok(())
}
