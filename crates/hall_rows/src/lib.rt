// The sheets of a hall (M-113), catalogue by catalogue, each line led by the catalogue's number and a comma. The tables are slices of arrays, one array for
// each catalogue. Rests on sheet_rows.
#![tactic(auto)]

ghost use Rattle.std.specs.Prelude.{◌≡◌, List, [], ◌∷◌, ◌++◌, ℕ, ◌+◌, ◌≤◌, ◌<◌, length, get_or};
ghost use Rattle.model.specs.Report.{digits};
ghost use Rattle.model.specs.Sale.{Sale};
ghost use Rattle.model.specs.Sheets.{sheets, hall_sheets};
ghost use Rattle.fields.specs.Wrote.{Wrote};
ghost use Rattle.sheet_rows.specs.Tables.{Ended};
ghost use Rattle.hall_rows.specs.Desks.{Catalogues, DeskFits, HallEnded, DesksFit, HallFits};

use sheet_rows::{Tables, put_sale};

// The digit of the number of the catalogue at place `c`.
fn digit(c: usize) -> u8
    requires { c < 9 }
    ensures { result ≡ 49 + c }
{
    49 + c as u8
}

// How many catalogues there are, where the lots above of the sets without one hold 65,535.
fn catalogues(aboves: &[[u16; 1024]]) -> usize
    ensures { (count : ℕ) → Catalogues count aboves.now → result ≡ count }
{
    for (c, table) in aboves.iter().enumerate() {
        if table[0] == 65535 {
            return c;
        }
    }
    aboves.len()
}

// Writes the sheets of the catalogue at place `c`.
fn put_desk(out: &mut [u8], at: usize, c: usize, tables: &Tables) -> usize
    requires { DeskFits (length out.old) at c tables.now.blocks.now tables.now.aboves.now tables.now.loadedpins.now tables.now.firsts.now tables.now.loadedsizes.now tables.now.visited.now }
    ensures { (a : Sale) → Ended a tables.now.blocks.now tables.now.aboves.now tables.now.loadedpins.now tables.now.firsts.now tables.now.loadedsizes.now tables.now.visited.now
        → at + length (sheets (digits (c + 1) ++ (44 ∷ [])) a) ≤ length out.old
        → Wrote out.old out.new at (sheets (digits (c + 1) ++ (44 ∷ [])) a) result }
{
    let number = digit(c);
    put_sale(out, at, &[number, 44], tables)
}

// Writes the sheets of the first `count` catalogues.
fn put_desks(
    out: &mut [u8],
    blocks: &[[u16; 1024]],
    aboves: &[[u16; 1024]],
    loadedpins: &[[u16; 8192]],
    firsts: &[[u16; 1024]],
    loadedsizes: &[[u16; 1024]],
    visited: &[[u16; 1024]],
    count: usize,
) -> usize
    requires { DesksFit (length out.old) blocks.now aboves.now loadedpins.now firsts.now loadedsizes.now visited.now count }
    ensures { (ds : List Sale) → length ds ≡ count
        → HallEnded ds blocks.now aboves.now loadedpins.now firsts.now loadedsizes.now visited.now
        → length (hall_sheets 1 ds) ≤ length out.old
        → Wrote out.old out.new 0 (hall_sheets 1 ds) result }
{
    let mut p = 0;
    for c in 0..count {
        let tables = Tables {
            blocks: &blocks[c],
            aboves: &aboves[c],
            loadedpins: &loadedpins[c],
            firsts: &firsts[c],
            loadedsizes: &loadedsizes[c],
            visited: &visited[c],
        };
        p = put_desk(out, p, c, &tables);
    }
    p
}

// Writes the sheets of a hall, whose sets of tables the engine left, catalogue by catalogue. Answers where they end. The lots above and the buyers' first
// places of every set held 65,535 before the engine ran.
pub fn put_hall(
    out: &mut [u8],
    blocks: &[[u16; 1024]],
    aboves: &[[u16; 1024]],
    loadedpins: &[[u16; 8192]],
    firsts: &[[u16; 1024]],
    loadedsizes: &[[u16; 1024]],
    visited: &[[u16; 1024]],
) -> usize
    requires { HallFits (length out.old) blocks.now aboves.now loadedpins.now firsts.now loadedsizes.now visited.now }
    ensures { (ds : List Sale) → Catalogues (length ds) aboves.now
        → HallEnded ds blocks.now aboves.now loadedpins.now firsts.now loadedsizes.now visited.now
        → length (hall_sheets 1 ds) ≤ length out.old
        → Wrote out.old out.new 0 (hall_sheets 1 ds) result }
{
    let count = catalogues(aboves);
    put_desks(
        out,
        blocks,
        aboves,
        loadedpins,
        firsts,
        loadedsizes,
        visited,
        count,
    )
}
