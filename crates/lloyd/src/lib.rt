// The tables of the Lloyd-Max quantizer for N(0,1) at 4, 5 and 6 bits: levels (centroids), and the boundaries between them.
#![tactic(auto)]

pub mod tables;

ghost use Rattle.std.specs.Prelude.{◌≡◌, [], ◌≤◌, length};
ghost use Rattle.lloyd.specs.Tables.{by_width, levels_of, centroids_of, boundaries_of, in_places};

use tables::{
    BOUNDARIES_4BIT, BOUNDARIES_5BIT, BOUNDARIES_6BIT, CENTROIDS_4BIT, CENTROIDS_5BIT,
    CENTROIDS_6BIT,
};

// What stands for a width of 4, of 5 and of 6 bits, and for any other.
fn by_width<T: Copy>(bits: u8, four: T, five: T, six: T, other: T) -> T
    ensures { result ≡ by_width four five six other bits }
{
    match bits {
        4 => four,
        5 => five,
        6 => six,
        _ => other,
    }
}

// How many levels a width has. Any other width than these three has none.
pub fn levels(bits: u8) -> usize
    ensures { result ≡ levels_of bits }
{
    by_width(bits, 16, 32, 64, 0)
}

// A table in the first of 64 places, and +0 in the places past it.
fn in_64_places(table: &[f32]) -> [f32; 64]
    requires { length table.now ≤ 64 }
    ensures { result ≡ in_places table.now }
{
    let mut places = [0.0; 64];
    places[..table.len()].copy_from_slice(table);
    places
}

// The centroids of a width. They come by value, since a constant table is built anew at each use; a caller lends `&c[0..levels(bits)]`.
pub fn centroids(bits: u8) -> [f32; 64]
    ensures { result ≡ in_places (centroids_of bits) }
{
    in_64_places(by_width(bits, &CENTROIDS_4BIT, &CENTROIDS_5BIT, &CENTROIDS_6BIT, &[]))
}

// The boundaries of a width, one fewer than its centroids.
pub fn boundaries(bits: u8) -> [f32; 64]
    ensures { result ≡ in_places (boundaries_of bits) }
{
    in_64_places(by_width(
        bits,
        &BOUNDARIES_4BIT,
        &BOUNDARIES_5BIT,
        &BOUNDARIES_6BIT,
        &[],
    ))
}
