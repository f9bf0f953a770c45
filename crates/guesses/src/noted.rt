// The records of whole sections, for files so short that all of them have room: what is noted once serves every reference of the file.
use crate::guesses::{entry_at, find_slot};

// Puts a record's place behind those that have its slot.
pub fn add_place(g: &mut [u32], h: u64, at: usize) {
    let Some(entry) = entry_at(h, at) else {
        return;
    };
    let slot = find_slot(h, g.len());
    for x in &mut g[slot..] {
        if *x == 0 {
            *x = entry;
            return;
        }
    }
}

// Are the records of table t noted? The last entries, which stand for no record, tell.
pub fn is_noted(g: &[u32], t: usize) -> bool {
    t < g.len() && g[g.len() - 1 - t] == 1
}

pub fn set_noted(g: &mut [u32], t: usize) {
    if t < g.len() {
        let i = g.len() - 1 - t;
        g[i] = 1;
    }
}
