// An example of the entry that takes a catalogue and a list of calls apart from each other: the catalogue from standard input, the worked
// sale's calls, and the lines of their answers to standard output.
#![tactic(auto)]

use engine::listing::kapokdrill_list;

fn main() {
    // one byte more than a file may have, so that a longer one is seen to be longer
    let mut file = [0u8; 60001];
    let mut output = [0u8; 60000];
    let mut weights = [0u32; 1024];
    let mut blocks = [0u16; 1024];
    let mut aboves = [0u16; 1024];
    let mut fixed = [0u16; 1024];
    let mut loadedpins = [0u16; 8192];
    let mut presentpins = [0u16; 8192];
    let mut firsts = [0u16; 1024];
    let mut loadedsizes = [0u16; 1024];
    let mut presentsizes = [0u16; 1024];
    let mut counts = [0u16; 16384];
    let mut gains = [0i32; 16384];
    let mut index = [0u16; 16384];
    let mut visited = [0u16; 1024];
    let n = io::read_full(0, &mut file);
    // J,2,5  M,2,2  S  B  A  X,5  N,10,1,2: the operands of N, its bales, its session and its buyers, from place 0 on
    let list = [
        74u32, 2, 5, 77, 2, 2, 83, 0, 0, 66, 0, 0, 65, 0, 0, 88, 5, 0, 78, 0, 3,
    ];
    let operands = [10u32, 1, 2];
    let ran = kapokdrill_list(
        &file[..n],
        &list,
        &operands,
        &mut output,
        &mut weights,
        &mut blocks,
        &mut aboves,
        &mut fixed,
        &mut loadedpins,
        &mut presentpins,
        &mut firsts,
        &mut loadedsizes,
        &mut presentsizes,
        &mut counts,
        &mut gains,
        &mut index,
        &mut visited,
    );
    let written = ran.written;
    io::write_all(1, &output[..written]);
}
