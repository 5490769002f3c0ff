// Peaks: for each part of 64 vertices, and for each vertex, a number that no gain of them passes. A search passes over the parts and the
// vertices that can't hold a better pair. The parts' are the first 16, that of vertex x is at 16 + x. Vertices and blocks count from 0.
ghost use Rattle.std.specs.Prelude.{◌≡◌, ℕ, ◌+◌, ◌*◌, ◌≤◌, ◌<◌, length};
ghost use Rattle.best_move.specs.Open.{RowOk};
ghost use Rattle.best_move.specs.Peak.{Under, Peaked, Higher, Raised, RowPeak, PartPeak, FourPeak, PartSet, Levelled};

// The highest of `before` and the gains of vertex `x`.
fn row_peak(gains: &[i32], x: usize, k: usize, before: i32) -> i32
    requires { RowOk (length gains.now) x k }
    ensures { RowPeak gains.now x k before result }
{
    let row = 16 * x;
    let mut peak = before;
    for j in 0..k {
        peak = i32::max(peak, gains[row + j]);
    }
    peak
}

// The highest gain of the vertices from `from` on and before `to`, vertex by vertex; where there is none, the lowest number that a table holds.
// No Option: the highest of two parts is then one max.
fn rows_peak(gains: &[i32], from: usize, to: usize, k: usize) -> i32
    requires { (from ≤ to) × (to ≤ 1024) × (k ≤ 16) × (16 * to ≤ length gains.now) }
    ensures { PartPeak gains.now from to k result }
{
    let mut peak: i32 = -2147483648;
    for x in from..to {
        peak = row_peak(gains, x, k, peak);
    }
    peak
}

// The highest gain of the same vertices to the four blocks from `b` on: four maxima side by side, of which none waits for another.
fn four_peak(gains: &[i32], from: usize, to: usize, b: usize) -> i32
    requires { (from ≤ to) × (to ≤ 1024) × (b ≤ 12) × (16 * to ≤ length gains.now) }
    ensures { FourPeak gains.now from to b result }
{
    let mut p0: i32 = -2147483648;
    let mut p1: i32 = -2147483648;
    let mut p2: i32 = -2147483648;
    let mut p3: i32 = -2147483648;
    for x in from..to {
        let at = 16 * x + b;
        p0 = i32::max(p0, gains[at]);
        p1 = i32::max(p1, gains[at + 1]);
        p2 = i32::max(p2, gains[at + 2]);
        p3 = i32::max(p3, gains[at + 3]);
    }
    i32::max(i32::max(p0, p1), i32::max(p2, p3))
}

// The highest gain of the same vertices to all `k` blocks, four at a time; the last four may hold some of those before them once more.
fn part_peak(gains: &[i32], from: usize, to: usize, k: usize) -> i32
    requires { (from ≤ to) × (to ≤ 1024) × (k ≤ 16) × (16 * to ≤ length gains.now) }
    ensures { PartPeak gains.now from to k result }
{
    if k < 4 {
        return rows_peak(gains, from, to, k);
    }
    let mut peak: i32 = -2147483648;
    for i in 0..k.div_ceil(4) {
        peak = i32::max(peak, four_peak(gains, from, to, usize::min(4 * i, k - 4)));
    }
    peak
}

// Sets the peaks of the vertices from `from` on and before `to`, each by its own gains, and answers the highest.
fn set_each(peaks: &mut [i32; 1040], gains: &[i32], from: usize, to: usize, k: usize) -> i32
    requires { (length peaks.old ≡ 1040) × (from ≤ to) × (to ≤ 1024) × (k ≤ 16) × (16 * to ≤ length gains.now) }
    ensures { PartSet gains.now from to k peaks.old peaks.new result }
{
    let mut peak: i32 = -2147483648;
    for x in from..to {
        let top = part_peak(gains, x, x + 1, k);
        peaks[16 + x] = top;
        peak = i32::max(peak, top);
    }
    peak
}

// Sets the peaks of the same vertices to `peak`.
fn set_all(peaks: &mut [i32; 1040], from: usize, to: usize, peak: i32)
    requires { (length peaks.old ≡ 1040) × (from ≤ to) × (to ≤ 1024) }
    ensures { Levelled from to peak peaks.old peaks.new }
{
    for x in from..to {
        peaks[16 + x] = peak;
    }
}

// Sets the peaks of the same vertices and answers a number that no gain of them passes. A vertex's own is worth its time only where its row is long:
// with up to four blocks all get the highest.
fn set_part(peaks: &mut [i32; 1040], gains: &[i32], from: usize, to: usize, k: usize) -> i32
    requires { (length peaks.old ≡ 1040) × (from ≤ to) × (to ≤ 1024) × (k ≤ 16) × (16 * to ≤ length gains.now) }
    ensures { PartSet gains.now from to k peaks.old peaks.new result }
{
    if k <= 4 {
        let peak = part_peak(gains, from, to, k);
        set_all(peaks, from, to, peak);
        return peak;
    }
    set_each(peaks, gains, from, to, k)
}

// Sets the peaks of all parts and of all `n` vertices.
pub fn survey(peaks: &mut [i32; 1040], gains: &[i32], n: usize, k: usize)
    requires { (length peaks.old ≡ 1040) × (n ≤ 1024) × (k ≤ 16) × (16 * n ≤ length gains.now) }
    ensures { Peaked gains.now peaks.new n k }
{
    for c in 0..n.div_ceil(64) {
        peaks[c] = set_part(peaks, gains, 64 * c, usize::min(64 * c + 64, n), k);
    }
}

// Raises the peak at place `i` to `gain`.
fn raise(peaks: &mut [i32; 1040], i: usize, gain: i32)
    requires { (length peaks.old ≡ 1040) × (i < 1040) }
    ensures { Raised peaks.old peaks.new i gain }
{
    peaks[i] = i32::max(peaks[i], gain);
}

// Raises the peaks of vertex `x` and of its part to what the gains of `x` need.
pub fn raise_row(peaks: &mut [i32; 1040], gains: &[i32], x: usize, k: usize)
    requires { RowOk (length gains.now) x k × (length peaks.old ≡ 1040) }
    ensures { Higher peaks.old peaks.new × ((b : ℕ) → b < k → Under gains.now peaks.new x b) }
{
    let peak = row_peak(gains, x, k, -2147483648);
    raise(peaks, x / 64, peak);
    raise(peaks, 16 + x, peak);
}

// Raises the same peaks to what the gain of `x` to block `b` needs.
pub fn raise_entry(peaks: &mut [i32; 1040], gains: &[i32], x: usize, b: usize)
    requires { (x < 1024) × (b < 16) × (16 * (x + 1) ≤ length gains.now) × (length peaks.old ≡ 1040) }
    ensures { Higher peaks.old peaks.new × Under gains.now peaks.new x b }
{
    let gain = gains[16 * x + b];
    raise(peaks, x / 64, gain);
    raise(peaks, 16 + x, gain);
}
