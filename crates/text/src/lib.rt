// What the programs over standard input read, taken apart: the fields of a line, parted by single blanks.
// No function here that others call asks anything of its caller.
#![tactic(auto)]

ghost use Rattle.std.specs.Prelude.{◌≡◌, length};
ghost use Rattle.text.specs.Fields.{fields, field_at, is_silent, Named};

// Whether the line is answered with an empty line: an empty line, and one that begins with `#`.
pub fn is_silent(line: &[u8]) -> bool
    ensures { result ≡ is_silent line.now }
{
    matches!(line, [] | [b'#', ..])
}

// What stands beside a word in a table: beside its first place there.
pub fn named<T: Copy>(table: &[(&[u8], T)], word: &[u8]) -> Option<T>
    ensures { Named table.now word.now result }
{
    for (name, value) in table {
        if *name == word {
            return Some(*value);
        }
    }
    None
}

// How many fields the line has: one more than its blanks.
pub fn field_count(line: &[u8]) -> usize
    ensures { result ≡ length (fields line.now) }
{
    line.split(|b| *b == b' ').count()
}

// Field i of the line, counted from 0: empty where the line has no such field.
pub fn field(line: &[u8], i: usize) -> &[u8]
    ensures { result.now ≡ field_at line.now i }
{
    line.split(|b| *b == b' ').nth(i).unwrap_or(b"")
}
