// The codes of values: at a width, by the tables of lloyd, and over any boundaries that are lent.
#![tactic(auto)]

ghost use Rattle.std.specs.Prelude.{◌≡◌, map, true, ℕ, ◌≤◌, length};
ghost use Rattle.lists.specs.Lists.{over};
ghost use Rattle.pattern.specs.Binary32.{◌⊗◌};
ghost use Rattle.lloyd.specs.Tables.{boundaries_of};
ghost use Rattle.lloyd.specs.Quantizer.{quantized, centroid_at, quantizable, coded_into, coded_squares, sum_at};
ghost use Rattle.lloyd.specs.Sound.{Rises};

// The code of x over n boundaries that rise: at least `code` and at most `code + left`, and each turn halves `left`, hence a while. At 15, 31 and 63 the
// comparisons are those of the Rust's search. Not by `partition_point`: it takes the count from the slice, where here it can be a constant (see `Boundaries`),
// and its result is known only once the test is shown to part the whole slice in two.
fn halving(boundaries: &[f32], x: f32, n: usize) -> usize
    requires rises { Rises boundaries.now }
    requires n_value { n ≡ length boundaries.now }
    ensures { result ≡ quantized boundaries.now x }
{
    let mut code = 0;
    let mut left = n;
    while 0 < left {
        let half = left - left / 2;
        code += counting::above(boundaries[code + half - 1], x, half);
        left /= 2;
    }
    code
}

// The code of x at a width, and 0 at a width that has no levels.
fn quantize_at(x: f32, bits: u8) -> u8
    ensures { result ≡ quantized (boundaries_of bits) x }
{
    let n = lloyd::levels(bits);
    if n == 0 {
        return 0;
    }
    let table = lloyd::boundaries(bits);
    halving(&table[0..n - 1], x, n - 1) as u8
}

// The same, with the three widths written out, so that the compiler knows how many turns the halving has and how long the table is.
pub fn quantize(x: f32, bits: u8) -> u8
    ensures { result ≡ quantized (boundaries_of bits) x }
{
    match bits {
        4 => quantize_at(x, 4),
        5 => quantize_at(x, 5),
        6 => quantize_at(x, 6),
        w => quantize_at(x, w),
    }
}

// True only of a table that rises strictly.
fn rises(table: &[f32]) -> bool
    ensures { result ≡ true → Rises table.now }
{
    table.is_sorted_by(|a, b| *a < *b)
}

// Whether each code over so many boundaries fits a byte, and there is a place for each value.
fn is_codable(boundaries: usize, values: usize, places: usize) -> bool
    ensures { result ≡ quantizable boundaries values places }
{
    boundaries <= 255 && values <= places
}

// The squares of the centroids of the codes from 0 to n.
fn squares(centroids: &[f32], n: usize) -> [f32; 256]
    requires { n ≤ 255 }
    ensures { (k : ℕ) → k ≤ n → centroid_at result k ≡ centroid_at centroids.now k ⊗ centroid_at centroids.now k }
{
    let mut table = [0.0; 256];
    for (code, square) in table[..n + 1].iter_mut().enumerate() {
        let c = dequantizer::dequantize_in(centroids, code);
        *square = c * c;
    }
    table
}

// Boundaries, whether they are known to rise, and how many they are: the count can be a constant, and the length of a slice isn't one.
#[derive(Clone, Copy)]
struct Boundaries<'a> {
    all: &'a [f32],
    rising: bool,
    count: usize,
    ghost rises: { rising ≡ true → Rises all.now },
    ghost counted: { count ≡ length all.now },
}

impl Boundaries<'_> {
    // The code of x by halving where the boundaries are known to rise, else by counting.
    fn code_of(&self, x: f32) -> usize
        ensures { result ≡ quantized self.now.all.now x }
    {
        if self.rising {
            halving(self.all, x, self.count)
        } else {
            counting::quantize_in(self.all, x)
        }
    }

    // The code of each value in its place. The result is the sum, in index order, of the entries that a table has for the codes: each addition waits for
    // the one before it, and the next codes are found meanwhile.
    // By index in `codes`: where iter_mut() is zipped, nothing is known after the loop of the entries that were written.
    fn write_codes(&self, table: &[f32; 256], xs: &[f32], codes: &mut [u8]) -> f32
        requires { (length self.now.all.now ≤ 255) × (length xs.now ≤ length codes.old) }
        ensures sum { result ≡ sum_at table.now self.now.all.now xs.now }
        ensures codes { codes.new ≡ over (map (quantized self.now.all.now) xs.now) codes.old }
    {
        let mut sum = 0.0f32;
        for (i, x) in xs.iter().enumerate() {
            let code = self.code_of(*x);
            codes[i] = code as u8;
            sum = sum + table[code];
        }
        sum
    }
}

// The same over any boundaries. Whether they rise is tested once, for all values, and the three widths' counts are written out, so that the compiler knows
// how many turns a halving has: without them a vector takes 1.9 times the instructions.
fn write_all(all: &[f32], table: &[f32; 256], xs: &[f32], codes: &mut [u8]) -> f32
    requires { (length all.now ≤ 255) × (length xs.now ≤ length codes.old) }
    ensures sum { result ≡ sum_at table.now all.now xs.now }
    ensures codes { codes.new ≡ over (map (quantized all.now) xs.now) codes.old }
{
    let rising = rises(all);
    match all.len() {
        15 => Boundaries {
            all,
            rising,
            count: 15,
        }
        .write_codes(table, xs, codes),
        31 => Boundaries {
            all,
            rising,
            count: 31,
        }
        .write_codes(table, xs, codes),
        63 => Boundaries {
            all,
            rising,
            count: 63,
        }
        .write_codes(table, xs, codes),
        count => Boundaries { all, rising, count }.write_codes(table, xs, codes),
    }
}

// The codes of many values over one table, into the first places of `codes`, and the sum of the squares of their centroids. Where a code might not fit a
// byte, or `codes` is too short, nothing is written.
pub fn quantize_summing(boundaries: &[f32], centroids: &[f32], xs: &[f32], codes: &mut [u8]) -> f32
    ensures sum { result ≡ coded_squares boundaries.now centroids.now xs.now codes.old }
    ensures codes { codes.new ≡ coded_into boundaries.now xs.now codes.old }
{
    if !is_codable(boundaries.len(), xs.len(), codes.len()) {
        return 0.0;
    }
    let squares = squares(centroids, boundaries.len());
    write_all(boundaries, &squares, xs, codes)
}
