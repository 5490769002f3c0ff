// What the hall's limit leaves to one catalogue in each session: the limit less what the others bear there.
#![tactic(auto)]

ghost use Rattle.std.specs.Prelude.{ℕ, ◌-◌, ◌*◌, ◌<◌, ◌≤◌, ◌≡◌, cond, [], leb, length, get_or};
ghost use Rattle.laws.specs.Sum.{sum};
ghost use Rattle.hall_rooms.specs.Rooms.{bearing, besides, FewBales, Leaves, Least};

// What the block t, counted from 0, of a catalogue with k blocks bears: none past them.
fn borne(row: &[u64; 16], k: usize, t: usize) -> u64
    requires { t < 16 }
    ensures { result ≡ bearing row.now k t }
{
    if t < k {
        return row[t];
    }
    0
}

// The same for a catalogue that counts, else none.
fn counted(row: &[u64; 16], k: usize, t: usize, d: usize, c: usize) -> u64
    requires { t < 16 }
    ensures { result ≡ besides c d (bearing row.now k t) }
{
    if d == c {
        return 0;
    }
    borne(row, k, t)
}

// What all catalogues but c bear in the block t together.
fn others_bear(loads: &[[u64; 16]], ks: [usize; 4], count: usize, c: usize, t: usize) -> u64
    requires { (count ≤ 4) × (4 ≤ length loads.now) × (length ks ≡ 4) × (t < 16) × FewBales loads.now ks count t }
    ensures { result ≡ sum count (λ d. besides c d (bearing (get_or loads.now d []) (get_or ks d 0) t)) }
{
    let mut all: u64 = 0;
    for d in 0..count {
        all += counted(&loads[d], ks[d], t, d, c);
    }
    all
}

// What the limit leaves to the catalogue c in each block.
pub fn rooms(loads: &[[u64; 16]], ks: [usize; 4], count: usize, c: usize, limit: u64) -> [u64; 16]
    requires { (count ≤ 4) × (4 ≤ length loads.now) × (length ks ≡ 4) × ((t : ℕ) → t < 16 → FewBales loads.now ks count t) }
    ensures { Leaves limit loads.now ks count c 16 result }
{
    let mut row = [0u64; 16];
    for t in 0..16 {
        row[t] = limit.saturating_sub(others_bear(loads, ks, count, c, t));
    }
    row
}

// The lesser of the cap and what the limit leaves, in each block.
pub fn ceilings(rooms: &[u64; 16], cap: u64) -> [u64; 16]
    ensures { Least cap rooms.now 16 result }
{
    let mut row = [0u64; 16];
    for t in 0..16 {
        row[t] = cap.min(rooms[t]);
    }
    row
}
