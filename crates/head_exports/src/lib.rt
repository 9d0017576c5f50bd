// What the head of a file states, for C and Rust: a client sizes the arrays that it lends by this before it reads the file.
#![tactic(auto)]

ghost use Rattle.std.specs.Prelude.{◌≡◌, ◌≤◌, length};
ghost use Rattle.lists.specs.Lists.{over};
ghost use Rattle.words.specs.Put.{put};
ghost use Rattle.head_exports.specs.Head.{head_words, put_head};

// How many words that is.
const HEAD_WORDS: usize = 7;

fn put_words(file: &[u8], answer: &mut [u64])
    requires { length (head_words file.now) ≤ length answer.old }
    ensures { answer.new ≡ over (head_words file.now) answer.old }
{
    let head = header::head_in(file);
    let header = head.header;
    answer[0] = head.version as u64;
    answer[1] = header.dim as u64;
    answer[2] = header.working_dim as u64;
    answer[3] = header.seed;
    answer[4] = header.bits as u64;
    answer[5] = header.residual as u64;
    answer[6] = head.count as u64;
}

// The words are version, dim, working_dim, seed, bits, residual and the count of slots. Limits are no matter of the head: reading refuses by 20.
#[unsafe(no_mangle)]
pub extern "C" fn vecq_raw_head(file: &[u8], answer: &mut [u64]) -> u8
    ensures { put result answer.new ≡ put_head file.now answer.old }
{
    if let Err(refusal) = header::check(file) {
        return u8::from(refusal);
    }
    if answer.len() < HEAD_WORDS {
        return 13;
    }
    put_words(file, answer);
    0
}
