// The tables of a call: the chains' masks pulled back through the steps of the register, and the masks and bits of a slice's specified positions alone.
#![tactic(auto)]

ghost use Rattle.std.specs.Prelude.{◌≡◌, ◌++◌, ◌*◌, ◌<◌, ◌≤◌, min, drop, length};
ghost use Rattle.machine_register.specs.Register.{pull as pull_of};
ghost use Rattle.search_table.specs.Rows.{rows_of};
ghost use Rattle.search_table.specs.Chosen.{chosen as chosen_of, packed};
ghost use Rattle.search_table.specs.Code.{entry_of};

// The mask that reads before a step what a mask reads after it.
fn pull(taps: u64, mask: u64) -> u64
    ensures { result ≡ pull_of taps mask }
{
    if mask % 2 == 1 {
        (mask / 2) ^ taps
    } else {
        mask / 2
    }
}

// What stands in the table at a place: a mask of the first row, or that of the row before pulled back.
fn entry(taps: u64, masks: &[u64], table: &[u64], place: usize) -> u64
    requires { place < length table.now }
    ensures { result ≡ entry_of taps masks.now table.now place }
{
    let chains = masks.len();
    if place < chains {
        masks[place]
    } else {
        pull(taps, table[place - chains])
    }
}

// The first rows of the table; every other entry stays as it was.
// An inner function: its callers show that the buffer has an entry for each.
pub fn fill(taps: u64, masks: &[u64], rows: usize, table: &mut [u64])
    requires { rows * length masks.now ≤ length table.old }
    ensures { table.new ≡ rows_of taps rows masks.now ++ drop (rows * length masks.now) table.old }
{
    let count = rows * masks.len();
    for place in 0..count {
        table[place] = entry(taps, masks, table, place);
    }
}

// The masks of the chains at the specified positions, and how many they are; every other entry of the buffer stays as it was.
// An inner function: its callers show that the buffer has an entry for each chain.
pub fn choose(specified: u64, masks: &[u64], chosen: &mut [u64]) -> usize
    requires { length masks.now ≤ length chosen.old }
    ensures answer { result ≡ length (chosen_of specified masks.now) }
    ensures buffer { chosen.new ≡ chosen_of specified masks.now ++ drop (length (chosen_of specified masks.now)) chosen.old }
{
    let mut left = specified;
    let mut count: usize = 0;
    for &mask in masks {
        if left % 2 == 1 {
            chosen[count] = mask;
            count += 1;
        }
        left /= 2;
    }
    count
}

// The bits at the specified positions among so many chains, one after the other; of more than 64 chains the first 64 count.
pub fn pack(specified: u64, bits: u64, chains: usize) -> u64
    ensures { result ≡ packed specified bits (min 64 chains) }
{
    let mut word: u64 = 0;
    for position in (0..chains.min(64)).rev() {
        if words_gf2::digit(specified, position) == 1 {
            word = word * 2 + words_gf2::digit(bits, position);
        }
    }
    word
}
