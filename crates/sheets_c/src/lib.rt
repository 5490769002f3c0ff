// Buyers' sheets for C: the export is the sheets' function, under the same contract. Rests on sheets.
#![tactic(auto)]

ghost use Rattle.model.specs.Catalogue.{main_limits};
ghost use Rattle.model.specs.Sheets.{SheetsServe};

use sheets::SheetsRan;

// The sheets of a sale file.
#[unsafe(no_mangle)]
pub extern "C" fn kapokdrill_sheets(file: &[u8], output: &mut [u8]) -> SheetsRan
    ensures { SheetsServe main_limits file.now output.old output.new result.code result.written }
{
    sheets::kapokdrill_sheets(file, output)
}
