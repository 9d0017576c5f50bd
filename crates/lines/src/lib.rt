// The lines of what a reader gives, one after the other, through a buffer that the caller lends:
//
//     let mut lines = Lines::new(reader, buf);
//     for _ in 0..u64::MAX {
//         match lines.next_line() {
//             None => break,
//             Some(Ok(line)) => .. lines.bytes(line) ..,
//             Some(Err(TooLong)) => ..,
//         }
//     }
#![tactic(auto)]

ghost use Rattle.std.specs.Prelude.{◌≡◌, ◌+◌, ◌≤◌, ◌<◌, length, take, IfOk, MatchOption};
ghost use Rattle.lines.specs.Lines.{Within, NoNewline, no_span, clipped, part_of, handed, Line, Handed, GoesOn};

use std::io::Read;

// A part of the buffer: the bytes from `from` up to `to`.
#[derive(Clone, Copy)]
pub struct Span {
    pub from: usize,
    pub to: usize,
}

impl Span {
    pub const EMPTY: Span = Span { from: 0, to: 0 };
}

// A line that the buffer can't hold with its newline. It was passed over.
#[derive(Clone, Copy)]
pub struct TooLong;

#[derive(Drop)]
pub struct Lines<'a, R> {
    pub reader: &'a mut R,
    pub buf: &'a mut [u8],
    // What was read and not handed out.
    pub unread: Span,
    // 0 where the input has ended. Nothing says that it ends, so lines and reads are counted down from a number that no run uses up.
    pub left: u64,
}

impl<'a, R: Read> Lines<'a, R> {
    // Before the first line.
    pub fn new(reader: &'a mut R, buf: &'a mut [u8]) -> Lines<'a, R>
        ensures buffer { result.buf.now ≡ buf.old }
        ensures unread { result.unread ≡ no_span }
        ensures left { result.left ≡ 18446744073709551615 }
        ensures same_buffer { result.buf.ghost_name ≡ buf.entry.ghost_name }
        ensures same_reader { result.reader.ghost_name ≡ reader.entry.ghost_name }
    {
        Lines {
            reader,
            buf,
            unread: Span::EMPTY,
            left: u64::MAX,
        }
    }

    // The bytes of a line that was handed out.
    pub fn bytes(&self, line: Span) -> &[u8]
        ensures { result.now ≡ part_of self.now.buf.now (clipped (length self.now.buf.now) line) }
    {
        let part = within(line, self.buf.len());
        &self.buf[part.from..part.to]
    }

    // The next line, without its newline; `None` where the input has ended. A last line without its newline counts, unless it is empty.
    // The reader is read only where the buffer has no whole line more, and then once at a time, into all the room that there is: a line
    // is handed out as soon as its newline has come. Once the input has ended, it is not read again.
    pub fn next_line(&mut self) -> Option<Result<Span, TooLong>>
        ensures line { Handed self.new.buf.now result }
        ensures unread { Within (length self.new.buf.now) self.new.unread }
        ensures left { GoesOn self.old.left self.new.left result }
        ensures length { length self.new.buf.now ≡ length self.old.buf.now }
        ensures same_buffer { self.new.buf.ghost_name ≡ self.old.buf.ghost_name }
        ensures same_reader { self.new.reader.ghost_name ≡ self.old.reader.ghost_name }
    {
        let before = within(self.unread, self.buf.len());
        let next = next_in(self.reader, self.buf, before, self.left);
        self.unread = next.unread;
        self.left = next.left;
        next.line
    }
}

// A step of the lines: what is handed out, what is unread after it, and how many lines and reads are left.
#[derive(Clone, Copy)]
struct Next {
    line: Option<Result<Span, TooLong>>,
    unread: Span,
    left: u64,
}

// The input has ended: nothing is handed out, and nothing is unread.
const ENDED: Next = Next {
    line: None,
    unread: Span::EMPTY,
    left: 0,
};

// The next line, of the lines and reads that are left.
// That a part lies within the buffer is a clause, here and below: the buffer is changed, and a struct of both would be made anew for each part.
fn next_in<R: Read>(reader: &mut R, buf: &mut [u8], unread: Span, before: u64) -> Next
    requires { Within (length buf.old) unread }
    ensures line { Handed buf.new result.line }
    ensures unread { Within (length buf.new) result.unread }
    ensures left { GoesOn before result.left result.line }
{
    let mut part = unread;
    let mut long = false;
    for left in (1..before).rev() {
        if let Some(end) = newline(buf, part) {
            let rest = Span {
                from: end + 1,
                to: part.to,
            };
            return Next {
                line: Some(handed(buf, long, part.from, end)),
                unread: rest,
                left,
            };
        }
        long = long || part.to - part.from == buf.len();
        let kept = keep(buf, part);
        let got = read_more(reader, buf, kept);
        if got == 0 {
            if !long && kept == 0 {
                return ENDED;
            }
            return Next {
                line: Some(handed(buf, long, 0, kept)),
                left,
                ..ENDED
            };
        }
        part = Span {
            from: 0,
            to: kept + got,
        };
    }
    ENDED
}

// The part itself, or an empty one where the part is not within the buffer.
fn within(part: Span, len: usize) -> Span
    ensures value { result ≡ clipped len part }
    ensures within { Within len result }
{
    if (part.from..=len).contains(&part.to) {
        return part;
    }
    Span::EMPTY
}

// The line that is handed out; one that is too long is passed over.
fn handed(buf: &[u8], long: bool, from: usize, to: usize) -> Result<Span, TooLong>
    requires within { (from ≤ to) × (to ≤ length buf.now) }
    requires no_newline { NoNewline buf.now from to }
    ensures value { result ≡ handed long from to }
    ensures line { IfOk result (Line buf.now) }
{
    if long {
        Err(TooLong)
    } else {
        Ok(Span { from, to })
    }
}

// The place of the first newline in the part. By index: so the check finds the proof alone; of `position` it would have to be said what the test says of each
// byte, and `part.from` added to each place.
fn newline(buf: &[u8], part: Span) -> Option<usize>
    requires { Within (length buf.now) part }
    ensures { MatchOption result (NoNewline buf.now part.from part.to)
        (λ end. (part.from ≤ end) × (end < part.to) × NoNewline buf.now part.from end) }
{
    for i in part.from..part.to {
        if buf[i] == b'\n' {
            return Some(i);
        }
    }
    None
}

// Moves a part to the front of the buffer, and answers its length. Where the part is the whole buffer, it is dropped: no line that long
// is handed out.
fn keep(buf: &mut [u8], part: Span) -> usize
    requires within { Within (length buf.old) part }
    requires no_newline { NoNewline buf.old part.from part.to }
    ensures within { result ≤ length buf.old }
    ensures clean { NoNewline buf.new 0 result }
{
    let n = part.to - part.from;
    if n == buf.len() {
        return 0;
    }
    buf.copy_within(part.from..part.to, 0);
    n
}

// Reads once into the buffer from `kept` on, and answers how many bytes came: none where the reading fails.
fn read_more<R: Read>(reader: &mut R, buf: &mut [u8], kept: usize) -> usize
    requires { kept ≤ length buf.old }
    ensures within { kept + result ≤ length buf.old }
    ensures front { take kept buf.new ≡ take kept buf.old }
{
    reader.read(&mut buf[kept..]).unwrap_or(0)
}
