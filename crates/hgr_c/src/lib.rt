// The converter for C: the export is the converter's function, under the same contract. Rests on hgr.
#![tactic(auto)]

ghost use Rattle.model.specs.Convert.{Converts};

use hgr::Converted;

// An hMETIS file with its listing to a catalogue.
#[unsafe(no_mangle)]
pub extern "C" fn kapokdrill_convert(input: &[u8], output: &mut [u8]) -> Converted
    ensures { Converts input.now output.old output.new result.code result.written }
{
    hgr::kapokdrill_convert(input, output)
}
