// The program: a sale file from standard input through the engine, and the buyers' sheets to standard output.
#![tactic(auto)]

use sheets::kapokdrill_sheets;

fn main() {
    // one byte more than a file may have, so that a longer one is seen to be longer
    let mut file = [0u8; 60001];
    let mut output = [0u8; 122880];
    let n = io::read_full(0, &mut file);
    let ran = kapokdrill_sheets(&file[..n], &mut output);
    let written = ran.written;
    io::write_all(1, &output[..written]);
}
