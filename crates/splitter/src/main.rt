// The program: a sale file from standard input through the engine, on memory of its own, and the report to standard output.
#![tactic(auto)]

use engine::columns_entry::run_columns;

fn main() {
    // one byte more than a file may have, so that a longer one is seen to be longer
    let mut file = [0u8; 60001];
    let mut output = [0u8; 60000];
    let mut weights = [0u32; 1024];
    let mut blocks = [0u16; 1024];
    let mut aboves = [0u16; 1024];
    let mut fixed = [0u16; 1024];
    let mut loadedpins = [0u16; 8192];
    let mut presentpins = [0u16; 8192];
    let mut firsts = [0u16; 1024];
    let mut loadedsizes = [0u16; 1024];
    let mut presentsizes = [0u16; 1024];
    let mut counts = [0u16; 16384];
    let mut gains = [0i32; 16384];
    let mut index = [0u16; 16384];
    let mut visited = [0u16; 1024];
    let n = io::read_full(0, &mut file);
    let ran = run_columns(
        &file[..n],
        &mut output,
        &mut weights,
        &mut blocks,
        &mut aboves,
        &mut fixed,
        &mut loadedpins,
        &mut presentpins,
        &mut firsts,
        &mut loadedsizes,
        &mut presentsizes,
        &mut counts,
        &mut gains,
        &mut index,
        &mut visited,
    );
    let written = ran.written;
    io::write_all(1, &output[..written]);
}
