// Buyers' sheets (M-113): a sale file through the engine, on tables of this crate's own, and the sheets into the lent output. What customers call. Rests on
// the engine's promise and on sheet_rows.
#![tactic(auto)]

ghost use Rattle.std.specs.Prelude.{◌≡◌, ℕ, ◌≤◌, List, length, take};
ghost use Rattle.model.specs.Catalogue.{main_limits};
ghost use Rattle.model.specs.Sheets.{sheets_of, Printed, SheetsServe};
ghost use Rattle.fields.specs.Wrote.{Wrote};
ghost use Rattle.sheets.specs.Left.{Left, CanHandOver};

use engine::columns_entry::run_columns;
use fields::put_word;
use sheet_rows::{Tables, put_sale};

// The answer: 0 or the number of the refusal, 1 to 8 or 21, and the bytes written.
#[repr(C)]
#[derive(Clone, Copy)]
pub struct SheetsRan {
    pub code: u32,
    pub written: usize,
}

// Copies the engine's line.
fn copy_line(output: &mut [u8], report: &[u8], written: usize) -> usize
    requires { (written ≤ length report.now) × (written ≤ length output.old) }
    ensures { Wrote output.old output.new 0 (take written report.now) result }
{
    put_word(output, 0, &report[..written])
}

// Writes what the engine's answer, report and tables lead to: its line where it turned the file down, else the sheets.
fn hand_over(
    output: &mut [u8],
    code: u32,
    written: usize,
    report: &[u8],
    tables: &Tables,
) -> SheetsRan
    requires { CanHandOver (length output.old) code written report.now tables.now.blocks.now tables.now.aboves.now tables.now.loadedpins.now tables.now.firsts.now tables.now.loadedsizes.now tables.now.visited.now }
    ensures { (file : List ℕ) → Left file code written report.now tables.now.blocks.now tables.now.aboves.now tables.now.loadedpins.now tables.now.firsts.now tables.now.loadedsizes.now tables.now.visited.now
        → Printed (sheets_of main_limits file) output.old output.new result.code result.written }
{
    if code != 0 {
        let end = copy_line(output, report, written);
        return SheetsRan { code, written: end };
    }
    let end = put_sale(output, 0, b"", tables);
    SheetsRan {
        code: 0,
        written: end,
    }
}

// The sheets of a file, into an output that is long enough. The lots above and the buyers' first places hold 65,535 before the engine runs, so that they tell
// how many lots and buyers there are.
fn print_sheets(file: &[u8], output: &mut [u8]) -> SheetsRan
    requires { 122880 ≤ length output.old }
    ensures { Printed (sheets_of main_limits file.now) output.old output.new result.code result.written }
{
    let mut report = [0u8; 60000];
    let mut weights = [0u32; 1024];
    let mut blocks = [0u16; 1024];
    let mut aboves = [65535u16; 1024];
    let mut fixed = [0u16; 1024];
    let mut loadedpins = [0u16; 8192];
    let mut presentpins = [0u16; 8192];
    let mut firsts = [65535u16; 1024];
    let mut loadedsizes = [0u16; 1024];
    let mut presentsizes = [0u16; 1024];
    let mut counts = [0u16; 16384];
    let mut gains = [0i32; 16384];
    let mut index = [0u16; 16384];
    let mut visited = [0u16; 1024];
    let ran = run_columns(
        file,
        &mut report,
        &mut weights,
        &mut blocks,
        &mut aboves,
        &mut fixed,
        &mut loadedpins,
        &mut presentpins,
        &mut firsts,
        &mut loadedsizes,
        &mut presentsizes,
        &mut counts,
        &mut gains,
        &mut index,
        &mut visited,
    );
    let tables = Tables {
        blocks: &blocks,
        aboves: &aboves,
        loadedpins: &loadedpins,
        firsts: &firsts,
        loadedsizes: &loadedsizes,
        visited: &visited,
    };
    hand_over(output, ran.code, ran.written, &report, &tables)
}

// A sale file and a lent output of 122,880 bytes, enough for every sale; a shorter one is 8, tested first.
pub fn kapokdrill_sheets(file: &[u8], output: &mut [u8]) -> SheetsRan
    ensures { SheetsServe main_limits file.now output.old output.new result.code result.written }
{
    if output.len() < 122880 {
        return SheetsRan {
            code: 8,
            written: 0,
        };
    }
    print_sheets(file, output)
}
