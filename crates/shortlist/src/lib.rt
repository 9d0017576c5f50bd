// The choice of slots where few of many are asked for. It is made among a shortlist, and most slots are only passed by.
//
// A number t is guessed. On the shortlist are the first n slots at or above t, and the later ones above t. Where these are n or more, T is t or
// above, and no other slot can be chosen.
#![tactic(auto)]

ghost use Rattle.std.specs.Prelude.{◌≡◌, true, map, ◌⊎◌, ◌*◌, ◌<◌, ◌≤◌, length, get_or, set};
ghost use Rattle.std.proofs.lemmas.List.Edits.{sets};
ghost use Rattle.lists.specs.Lists.{over};
ghost use Rattle.choose_slots.specs.Slots.{listed_within};
ghost use Rattle.shortlist.specs.Shortlist.{is_kept, shortened};

fn entry(from: &[u32], place: u32) -> u32
    ensures { result ≡ get_or from.now place 0 }
{
    from.get(place as usize).copied().unwrap_or(0)
}

// ---- the guess, on which only speed rests

// Copies every 33rd order number: an odd number, since what alternates among slots mostly does so by an even one.
fn draw(orders: &[u32], sample: &mut [u32]) {
    for (drawn, order) in sample.iter_mut().zip(orders.iter().step_by(33)) {
        *drawn = *order;
    }
}

// The order number at a place of the list of chosen slots, 0 where the list ends before.
fn chosen_order(orders: &[u32], place: u32) -> u32 {
    let mut slots = [0u32; 4096];
    let n = choose_slots::choose(orders, place as usize + 1, &mut slots);
    if n <= place as usize {
        0
    } else {
        entry(orders, entry(&slots, place))
    }
}

// A number that n order numbers are likely to reach, and not many more: at least 1, which all slots that take part reach.
// At most 65,536 orders: a clause here and below, since a struct of the slice and a ghost field would be longer.
fn guess(orders: &[u32], n: usize) -> u32
    requires { (length orders.now ≤ 65536) × (n ≤ 65536) }
    ensures { 0 < result }
{
    let mut sample = [0u32; 4096];
    let m = orders.len() / 33;
    draw(orders, &mut sample[..m]);
    chosen_order(&sample[..m], (n / 32 + n / 128 + 15) as u32).max(1)
}

// ---- the shortlist

fn is_kept(order: u32, t: u32, n: usize, m: usize) -> bool
    ensures { result ≡ is_kept order t n m }
{
    t <= order && (t < order || m < n)
}

// By a test and an index: a write through get_mut says nothing of the entries.
fn put(places: &mut [u32], i: usize, x: u32)
    ensures { places.new ≡ set places.old i x }
{
    if i < places.len() {
        places[i] = x;
    }
}

// Writes the slots of the shortlist and their order numbers, as far as there are places, and returns how many there are.
// In two arrays, since the choice takes the order numbers alone as a slice.
fn shorten(orders: &[u32], t: u32, n: usize, names: &mut [u32], numbers: &mut [u32]) -> usize
    requires { length orders.now ≤ 65536 }
    ensures { (result ≡ length (shortened n t orders.now))
        × (names.new ≡ sets names.old 0 (map (λ e. e.0) (shortened n t orders.now)))
        × (numbers.new ≡ sets numbers.old 0 (map (λ e. e.1) (shortened n t orders.now))) }
{
    let mut m: usize = 0;
    for (slot, order) in orders.iter().enumerate() {
        if is_kept(*order, t, n, m) {
            put(names, m, slot as u32);
            put(numbers, m, *order);
            m += 1;
        }
    }
    m
}

// Whether the m slots of the shortlist are so few that there was room, and as many as are asked for, or all that take part.
fn is_short(n: usize, t: u32, m: usize) -> bool
    ensures { result ≡ true → (m ≤ 4096) × ((n ≤ m) ⊎ (t ≡ 1)) }
{
    m <= 4096 && (n <= m || t == 1)
}

// ---- the choice

// Puts in place of each number the slot that stands there on the shortlist.
fn rename(names: &[u32], slots: &mut [u32])
    ensures { slots.new ≡ map (λ i. get_or names.now i 0) slots.old }
{
    for slot in slots.iter_mut() {
        *slot = entry(names, *slot);
    }
}

// The choice over the order numbers of a shortlist, by the names of the slots.
fn choose_among(names: &[u32], numbers: &[u32], k: usize, slots: &mut [u32]) -> usize
    ensures value { result ≡ length (listed_within numbers.now k slots.old) }
    ensures slots_after { slots.new ≡ over (map (λ i. get_or names.now i 0) (listed_within numbers.now k slots.old))
        slots.old }
{
    let n = choose_slots::choose(numbers, k, slots);
    rename(names, &mut slots[..n]);
    n
}

fn choose_few(orders: &[u32], k: usize, slots: &mut [u32]) -> usize
    requires { (length orders.now ≤ 65536) × (k ≤ 65536) }
    ensures value { result ≡ length (listed_within orders.now k slots.old) }
    ensures slots_after { slots.new ≡ over (listed_within orders.now k slots.old) slots.old }
{
    let n = k.max(1);
    let t = guess(orders, n);
    let mut names = [0u32; 4096];
    let mut numbers = [0u32; 4096];
    let m = shorten(orders, t, n, &mut names, &mut numbers);
    if is_short(n, t, m) {
        return choose_among(&names[..m], &numbers[..m], k, slots);
    }
    choose_slots::choose(orders, k, slots)
}

// Whether a shortlist is worth its while.
fn is_few(k: usize, all: usize) -> bool
    ensures { result ≡ true → (all ≤ 65536) × (k ≤ 65536) }
{
    (1025..=65536).contains(&all) && k <= all / 32
}

// Writes the numbers of the chosen slots to the first places of `slots`, and returns how many there are: what `choose_slots::choose` does.
pub fn choose(orders: &[u32], k: usize, slots: &mut [u32]) -> usize
    ensures value { result ≡ length (listed_within orders.now k slots.old) }
    ensures slots_after { slots.new ≡ over (listed_within orders.now k slots.old) slots.old }
{
    if is_few(k, orders.len()) {
        return choose_few(orders, k, slots);
    }
    choose_slots::choose(orders, k, slots)
}
