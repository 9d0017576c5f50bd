// The sign stream of vecq's rhdh.rs: the generator xorshift64*, a sign for each step, and the wrapping product that it takes.
#![tactic(auto)]

ghost use Rattle.std.specs.Prelude.{◌≡◌, ◌*◌, ◌%◌, ◌^◌, slice_index};
ghost use Rattle.signs.specs.Signs.{start, next_state, output, sign};

// A u64 is two digits to this base, its halves.
const BASE: u64 = 0x1_0000_0000;

// a * b modulo 2^64, from the products of their halves. The product of the two high halves is left out: it counts for a multiple of 2^64.
// Document 01 names this form.
#[tactic(auto, using(crate::proofs::Product::from_halves))]
fn wrapping_mul(a: u64, b: u64) -> u64
    ensures { result ≡ a * b % 2 ^ 64 }
{
    let low = (a % BASE) * (b % BASE);
    let cross = ((a % BASE) * (b / BASE)).wrapping_add((a / BASE) * (b % BASE));
    low.wrapping_add(cross << 32)
}

// The state times the multiplier. It is lent, so that the compiler forms `wrapping_mul` of any two factors, which is one multiplication: with the constant put
// in first there are three, and a sign takes a quarter more time.
fn scrambled(state: u64, multiplier: &[u64; 1]) -> u64
    ensures { result ≡ state * slice_index multiplier.now 0 % 2 ^ 64 }
{
    wrapping_mul(state, multiplier[0])
}

// The generator xorshift64*, from which the signs come.
#[derive(Drop)]
pub struct SignStream {
    pub state: u64,
}

impl SignStream {
    // The state 0 would stay 0 for ever, so the seed 0 stands for another.
    #[tactic(auto, unfolding(crate::specs::Signs::start))]
    pub fn new(seed: u64) -> Self
        ensures { result.state ≡ start seed }
    {
        let state = if seed == 0 {
            0x9E37_79B9_7F4A_7C15
        } else {
            seed
        };
        Self { state }
    }

    // A step, and the sign, 1 or -1, by the top bit of the output. The Rust compares the output's top 53 bits, as a fraction, with 0.5, which is the same test.
    // The bit picks the sign from an array: an `if` becomes a jump, which would be guessed wrong half the time.
    #[tactic(auto, using(crate::proofs::Signs::sign_by_top), unfolding(crate::specs::Signs::xor_right, crate::specs::Signs::xor_left, crate::specs::Signs::next_state, crate::specs::Signs::output))]
    pub fn next_sign(&mut self) -> f32
        ensures state { self.new.state ≡ next_state self.old.state }
        ensures sign { result ≡ sign (output (next_state self.old.state)) }
    {
        let s = self.state;
        let a = s ^ (s >> 12);
        let b = a ^ (a << 25);
        self.state = b ^ (b >> 27);
        let multiplier = [0x2545_F491_4F6C_DD1D];
        let output = scrambled(self.state, &multiplier);
        let signs = [-1.0, 1.0];
        let top = (output >> 63) as usize;
        signs[top]
    }
}
