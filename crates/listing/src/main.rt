// Prints the listing of a file of the byte form, which it reads on standard input. What a listing is, and what holds of it, stands in `listed`.
#![tactic(auto)]

ghost use Rattle.std.specs.Prelude.{◌≡◌, length, take};
ghost use Rattle.io.specs.Counts.{IsPrefixLen};
ghost use Rattle.listed.specs.Listing.{listing_text};

fn main() {
    // One byte more than the longest file that is no refusal 20: of a longer file these bytes give the listing (`PartTells`).
    let mut file = [0u8; 65537];
    let n = io::read_full(0, &mut file);
    print_listing(&file[..n]);
}

fn print_listing(file: &[u8]) {
    let mut out = [0u8; 65536];
    let end = list(&mut out, file);
    io::write_all(1, &out[..end]);
}

// The listing at the front of out: there is room for all of it (`TextFits`).
fn list(out: &mut [u8], file: &[u8]) -> usize
    requires { 65536 ≡ length out.old }
    ensures in_bounds { IsPrefixLen result out.new }
    ensures text { take result out.new ≡ listing_text file.now }
{
    listing_text::put_listing(out, file)
}
