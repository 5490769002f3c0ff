// The program: an hMETIS file with its listing from standard input through the converter, and the catalogue to standard output.
#![tactic(auto)]

use hgr::kapokdrill_convert;

fn main() {
    // one byte more than an input may have, so that a longer one is seen to be longer
    let mut input = [0u8; 60001];
    let mut output = [0u8; 60000];
    let n = io::read_full(0, &mut input);
    let done = kapokdrill_convert(&input[..n], &mut output);
    let written = done.written;
    io::write_all(1, &output[..written]);
}
